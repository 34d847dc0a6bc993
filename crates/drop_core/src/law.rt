// What holds under every list of events.
ghost use Rattle.drop_core.specs.Law.{PagesStaySound};

/// The theorem, about the very condition and effect that `DropCore::step` follows. Each act keeps the pages sound,
/// with the homes after its moves, and leaves alone the pages that any seat holds, what another seat has locked or shut,
/// and the slots that another seat made; the start is sound; so every list of events, of any number of seats, keeps them
/// so. In a sound state a slot that a seat holds is not given, one that a seat made is in its hands alone,
/// each seat can hold any slot, and the way down from a pointer ends at the key's home. An install moves keys from
/// the snapshot page to the slot, and a swing from the slot, or from all slots of a chain, to one; a swing alone takes
/// away what leads to a slot. The tests over lists that an install and a swing ask are exact of all keys.
pub fn pages_stay_sound()
    ensures { PagesStaySound }
{}
