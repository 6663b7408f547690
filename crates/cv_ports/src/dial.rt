//! Where links to other hosts come from.
ghost use Rattle.std.specs.Prelude.{◌≡◌, ◌≤◌, ◌⊎◌, ℕ, Option, [], IfOk, OnErr, IsErr, IsSome, option_map};
ghost use Rattle.cv_base.specs.Counts.{HasCause};
ghost use Rattle.cv_base.specs.Told.{WhereTold};
ghost use Rattle.cv_ports.specs.Dial.{Story, came_of, and_failed, and_opened, and_back, after_back};
ghost use Rattle.cv_ports.specs.Streams.{Look};

use crate::failed::Failed;
use crate::link::Link;
use crate::sink::Sink;
use crate::source::Source;

/// Where links to other hosts come from. Each link is handed back when it was used.
pub trait Dial {
    /// What a link's peer sends. What the peer is sent stands beside it.
    type Reads: Source<Beside = Self::Writes> + Drop;

    /// What a link's peer is sent.
    type Writes: Sink + Drop;

    /// How many dials were made, and which links were opened and came back, in their order, where it tells.
    ghost came: { Self → Option Story };

    /// When the reads of the links that came back began, each with what the link had left then and what it had passed on,
    /// where it tells.
    ghost looks: { Self → Look → Type 0 };

    /// How many of its dials failed, and how many of its links came back with a fault, so far as 64 bits can count.
    ghost faults: { Self → ℕ };

    /// Opens a link to a port of a host, which is a name or an IP address. The link has given and taken nothing, and none of
    /// its calls failed. Where the dial tells, its links tell.
    fn dial(&mut self, host: &str, port: u16) -> Result<Link<Self::Reads, Self::Writes>, Failed>
        ensures host { IfOk result (λ link. link.host ≡ host.now) }
        ensures port { IfOk result (λ link. link.port ≡ port) }
        ensures given { IfOk result (λ link. WhereTold (Self.Reads.given link.reads) (λ bytes. bytes ≡ [])) }
        ensures taken { IfOk result (λ link. WhereTold (Self.Writes.taken link.writes) (λ bytes. bytes ≡ [])) }
        ensures passed { IfOk result (λ link. Self.Writes.passed link.writes ≡ Self.Writes.taken link.writes) }
        ensures unread { IfOk result (λ link. (look : Look) → Self.Reads.looks link.reads look → ⊥) }
        ensures reads { IfOk result (λ link. Self.Reads.faults link.reads ≡ 0) }
        ensures writes { IfOk result (λ link. Self.Writes.faults link.writes ≡ 0) }
        ensures left_told { IfOk result (λ link. IsSome (came self.old) → IsSome (Self.Reads.left link.reads)) }
        ensures given_told { IfOk result (λ link. IsSome (came self.old) → IsSome (Self.Reads.given link.reads)) }
        ensures taken_told { IfOk result (λ link. IsSome (came self.old) → IsSome (Self.Writes.taken link.writes)) }
        ensures opened { IfOk result (λ link. came self.new ≡ option_map (and_opened host.now port) (came self.old)) }
        ensures failed { OnErr result (came self.new ≡ option_map and_failed (came self.old)) }
        ensures unlooked { (look : Look) → looks self.new look → looks self.old look }
        ensures cause { HasCause (faults self.old) (faults self.new) (IsErr result) };

    /// Takes a link back. It needs no memory and can't fail. A link of which a call failed is counted as one fault.
    fn back(&mut self, link: Link<Self::Reads, Self::Writes>)
        ensures came { came self.new
            ≡ option_map (and_back (came_of Self.Reads.given Self.Reads.left Self.Writes.taken Self.Writes.passed link)) (came self.old) }
        ensures noted { (look : Look) → looks self.new look → looks self.old look ⊎ Self.Reads.looks link.reads look }
        ensures later { faults self.old ≤ faults self.new }
        ensures counted { faults self.new ≡ after_back (Self.Reads.faults link.reads) (Self.Writes.faults link.writes) (faults self.old) };
}
