// What stands in places.
ghost use Rattle.std.specs.Prelude.{◌≡◌, if◌then◌else◌};
ghost use Rattle.homes.specs.Homes.{same_spot};
ghost use Rattle.commit_core.specs.Places.{placed, is_open_to};

use homes::{Content, Holder, Spot};

/// What stands in a place of a slot's page. A place that somebody holds is locked.
#[derive(Clone, Copy, Debug, PartialEq, Eq)]
pub struct Place {
    pub content: Content,
    pub holder: Holder,
}

/// Whether nobody holds it, or this seat does.
pub fn is_open_to(id: u32, holder: Holder) -> bool
    ensures { result ≡ is_open_to id holder }
{
    match holder {
        Holder::Free => true,
        Holder::Held(seat) => seat == id,
        Holder::Dead => false,
    }
}

/// Puts this wherever the place stands.
pub fn put_place(places: &mut [(Spot, Place)], spot: Spot, new: Place)
    ensures { places.new ≡ placed places.old spot new }
{
    for entry in places.iter_mut() {
        *entry = replaced(*entry, spot, new);
    }
}

/// With the new content, where it is this place.
fn replaced(old: (Spot, Place), spot: Spot, new: Place) -> (Spot, Place)
    ensures { result ≡ (if same_spot old.0 spot then (old.0, new) else old) }
{
    if old.0.is(spot) { (old.0, new) } else { old }
}
