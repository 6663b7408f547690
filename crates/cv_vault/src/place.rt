//! What stands at a name of a vault in memory, in numbers.
ghost use Rattle.std.specs.Prelude.{◌≡◌, ◌&&◌, if◌then◌else◌};
ghost use Rattle.cv_vault.specs.PlacesInner.{is_settled_place, moved_place, left_place, next_pick};

/// What a crash may do to a name. The file before a move is given by its number among the contents.
#[derive(Clone, Copy)]
pub enum PlaceMark {
    Settled,
    Torn,
    Moved(Option<usize>),
}

/// What stands at a name: the number of its content, if it has a file, and the mark.
#[derive(Clone, Copy)]
pub struct Place {
    pub now: Option<usize>,
    pub mark: PlaceMark,
}

impl Place {
    /// Whether a crash leaves the name as it is.
    pub fn is_settled(self) -> bool
        ensures { result ≡ is_settled_place self }
    {
        match self.mark {
            PlaceMark::Settled => true,
            PlaceMark::Torn => false,
            PlaceMark::Moved(_) => false,
        }
    }

    /// The file that a crash leaves by the lowest bit of a pick.
    pub fn left(self, pick: u64) -> Option<usize>
        ensures { result ≡ left_place pick self }
    {
        if self.is_settled() || pick % 2 != 0 {
            return self.now;
        }
        match self.mark {
            PlaceMark::Settled => self.now,
            PlaceMark::Torn => None,
            PlaceMark::Moved(before) => before,
        }
    }

    /// The pick that is left for the next name.
    pub fn rest(self, pick: u64) -> u64
        ensures { result ≡ next_pick pick self }
    {
        if self.is_settled() { pick } else { pick / 2 }
    }
}

// The place of a name that has another file by a rename or a removal. It is moved where all names of the call were settled,
// and else torn.
fn moved(place: Place, now: Option<usize>, all_settled: bool) -> Place
    ensures { result ≡ moved_place place now all_settled }
{
    let mark = if all_settled {
        PlaceMark::Moved(place.now)
    } else {
        PlaceMark::Torn
    };
    Place { now, mark }
}

/// What stands at a name after its removal, which was made or wasn't.
pub fn removed(place: Place, made: bool) -> Place
    ensures { result ≡ moved_place place (if made then None else place.now) (is_settled_place place) }
{
    let now = if made { None } else { place.now };
    moved(place, now, place.is_settled())
}

/// What stands at two names after a rename from one to the other, which was made or wasn't.
pub fn renamed(from: Place, to: Place, made: bool) -> (Place, Place)
    ensures from { result.0 ≡ moved_place from (if made then None else from.now) (is_settled_place from && is_settled_place to) }
    ensures to { result.1 ≡ moved_place to (if made then from.now else to.now) (is_settled_place from && is_settled_place to) }
{
    let all_settled = from.is_settled() && to.is_settled();
    let (from_now, to_now) = if made {
        (None, from.now)
    } else {
        (from.now, to.now)
    };
    (
        moved(from, from_now, all_settled),
        moved(to, to_now, all_settled),
    )
}
