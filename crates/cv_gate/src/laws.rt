//! Laws over the definitions alone, for every run of the gate and every list of its lives.
ghost use Rattle.std.specs.Prelude.{◌≡◌, ◌⊎◌, ◌<◌, ◌≤◌, true, ◌++◌, ℕ, List, [], ◌∷◌, Option, None, Some};
ghost use Rattle.std.specs.List.{Contains};
ghost use Rattle.cv_base.specs.declared.id.ObjectId.{ObjectId as IdData};
ghost use Rattle.cv_base.specs.declared.object.Object.{Object as ObjectData};
ghost use Rattle.cv_base.specs.declared.token.Token.{Token as TokenData};
ghost use Rattle.cv_base.specs.Token.{last_number};
ghost use Rattle.cv_base.specs.Moment.{IsMoment};
ghost use Rattle.cv_ports.specs.Objects.{shelf_of};
ghost use Rattle.cv_ports.specs.Shelf.{IsShelf, Shelf as ObjectShelf};
ghost use Rattle.cv_leases.specs.declared.lease.Lease.{Lease as LeaseData};
ghost use Rattle.cv_tree.specs.Changes.{has_place};
ghost use Rattle.cv_tree.specs.Tree.{Nodes, at};
ghost use Rattle.cv_cut.specs.Cut.{catalogue_object};
ghost use Rattle.cv_cut.specs.Means.{Means};
ghost use Rattle.cv_base.specs.Objects.{AreNamed};
ghost use Rattle.cv_objects.specs.Coming.{HasAll};
ghost use Rattle.cv_swap.specs.Kept.{Revision, newest, record_object, AreSound, Kept, IsKept};
ghost use Rattle.cv_swap.specs.First.{first_revision};
ghost use Rattle.cv_gate.specs.State.{State, aged, Settled};
ghost use Rattle.cv_gate.specs.Step.{Records, Waits, Goes, Step, Run};
ghost use Rattle.cv_gate.specs.Sound.{AreLeases, Sound};
ghost use Rattle.cv_gate.specs.Completeness.{Unopposed, IsDone};
ghost use Rattle.cv_gate.specs.Ready.{IsReady, Ends};
ghost use Rattle.cv_gate.specs.Laws.{is_committed, Makes, GrowsBy, Numbers};
ghost use Rattle.cv_gate.specs.Kept.{kept, reopened, Pending, Left, Crash};
ghost use Rattle.cv_gate.specs.Lives.{Life, Lives, Prolongs};
ghost use Rattle.cv_gate.specs.declared.entry.Entry.{Entry as EntryData};
ghost use Rattle.cv_gate.specs.declared.op.Op.{Op as OpData};
ghost use Rattle.cv_gate.specs.declared.op.Op.TheVariants as op;
ghost use Rattle.cv_gate.specs.declared.reply.Reply.{Reply as ReplyData};
ghost use Rattle.cv_gate.specs.declared.reply.Reply.TheVariants as reply;

/// What holds of a state at any time holds after each step, and so after every run; and however a commit in doubt is settled.
pub fn steps_keep_sound()
    ensures settled { (st settled : State) → Sound st → Settled st settled → Sound settled }
    ensures step { (st : State) (o : OpData) (e : EntryData) (st' : State) → Sound st → Step st o e st' → Sound st' }
    ensures run { (st : State) (entries : List EntryData) (st' : State) → Sound st → Run st entries st' → Sound st' }
{}

/// Leases never overlap: what holds of the leases of a state holds of those of every later one.
pub fn leases_stay_apart()
    ensures { (st : State) (entries : List EntryData) (st' : State) → Run st entries st' → AreLeases st → AreLeases st' }
{}

/// A live lease stands in a directory of the newest tree, and what it covers is there as it is in each revision from that of
/// its grant on.
pub fn leases_keep_their_place()
    ensures place { (st : State) (lease : LeaseData) (head : Revision)
        → Sound st → Contains st.leases lease → newest st.history ≡ Some head → has_place head.tree lease.path ≡ true }
    ensures same { (st : State) (lease : LeaseData) (head base : Revision)
        → Sound st → Contains st.leases lease → newest st.history ≡ Some head
        → Contains st.history base → lease.from_revision ≤ base.record_.revision → at base.tree lease.path ≡ at head.tree lease.path }
{}

/// The history grows by the commits of the journal alone, each once and in order: from any state, with a commit in doubt or
/// without, and however such a one in the end is settled.
pub fn history_is_the_journal()
    ensures any { (st : State) (entries : List EntryData) (st' end : State) → Run st entries st' → Settled st' end → GrowsBy st entries end }
    ensures certain { (st : State) (entries : List EntryData) (st' : State) → st.doubt ≡ None → Run st entries st'
        → (news : List Revision) × (st'.history ≡ st.history ++ news) × Makes entries news }
{}

/// No token is granted twice: tokens have the epoch of the state, and the next numbers one after another.
pub fn tokens_are_numbered()
    ensures { (st : State) (entries : List EntryData) (st' : State) → Run st entries st' → Numbers st entries st' }
{}

/// A step waits for a commit in doubt, or goes on from the settled state that came. Where no refusal's condition holds in that
/// one, whatever holds had the commit been settled otherwise, the op is answered as it would be there, or a fault came, which
/// the end of a lease doesn't meet. That a root means no two trees on a shelf is a law of loading trees.
pub fn what_nothing_opposes_is_answered()
    ensures { (st : State) (o : OpData) (e : EntryData) (st' : State)
        → ((shelf : ObjectShelf) (root : List ℕ) (t u : Nodes) → Means shelf root t → Means shelf root u → t ≡ u)
        → Step st o e st'
        → Waits st e st' ⊎ ((came : Goes st o e st') × ((r : ReplyData) → Unopposed (aged came.settled e.now) o r → IsDone o e.reply r)) }
{}

/// A commit that is ready ends as its step: whichever of its three ends comes, the entry with that reply is a step from the
/// state in which the commit was begun.
pub fn a_ready_commit_ends_its_step()
    ensures { (before : State) (o : OpData) (now : ℕ) (new : Revision) (stored : State) (e : EntryData) (st' : State)
        → IsReady before o now new stored → e.now ≡ now → Records e o → Ends new stored e.reply st' → Step before o e st' }
{}

/// A repository of its first revision alone is sound on each shelf that has its record and its catalogue; and there is such a
/// shelf.
pub fn first_revisions_are_sound()
    ensures anywhere { (s : ObjectShelf) (now : ℕ) → IsMoment now → IsShelf s
        → HasAll (record_object (first_revision now) ∷ catalogue_object (first_revision now).tree [] ∷ []) s → AreSound s (first_revision now ∷ []) }
    ensures somewhere { (now : ℕ) → IsMoment now
        → IsKept (record { history = first_revision now ∷ []; shelf = shelf_of (record_object (first_revision now) ∷ catalogue_object (first_revision now).tree [] ∷ []); epoch = 0 }) }
{}

/// What is kept of a sound state is sound, and a gate that is opened on it is in a sound state.
pub fn opening_is_sound()
    ensures kept { (st : State) → Sound st → IsKept (kept st) }
    ensures opened { (k : Kept) → IsKept k → k.epoch < last_number → Sound (reopened k) }
{}

/// The revisions of a sound state, settled one way or the other, stand on whatever a crash leaves of the shelf.
pub fn crashes_leave_revisions()
    ensures { (st settled : State) (objects : List ObjectData) (s : ObjectShelf) → Sound st → Settled st settled
        → AreNamed objects → ((id : IdData) → Left st objects id (s id)) → AreSound s settled.history }
{}

/// What a crash leaves after a step, with nothing in progress, it may leave within the step; and what it leaves once a doubt
/// is settled it may leave before.
pub fn crashes_after_are_crashes_within()
    ensures after { (st : State) (o : OpData) (e : EntryData) (st' : State) (k : Kept)
        → Step st o e st' → Crash st' None k → Crash st (Some (record { op = o; now = e.now })) k }
    ensures settled { (st settled : State) (o : Option Pending) (k : Kept) → Settled st settled → Crash settled o k → Crash st o k }
{}

/// Where objects were told as stored, or a commit as made, a crash loses nothing of it.
pub fn what_is_told_is_kept()
    ensures stored { (st : State) (key : List ℕ) (token : TokenData) (digest : List ℕ) (batch : List ObjectData) (e : EntryData) (st' : State) (k : Kept)
        → Step st (op.Store key token digest batch) e st' → e.reply ≡ reply.Stored → Crash st' None k → k ≡ kept st' }
    ensures committed { (st : State) (o : OpData) (e : EntryData) (st' : State) (k : Kept)
        → Step st o e st' → is_committed e.reply ≡ true → Crash st' None k → k ≡ kept st' }
{}

/// Over any list of lives, cut by crashes at any moment, the history only grows, and by commits alone: each that was told
/// of its revision made it, once and in order, and every other was answered that the disk failed, or was in progress at a
/// crash. Each was made under a lease that was granted in the same life, and changed nothing but what its path covers. No
/// token is granted twice.
pub fn lives_make_one_line()
    ensures { (k : Kept) (lives : List Life) (k' : Kept) → IsKept k → Lives k lives k' → Prolongs k lives k' }
{}
