ghost use Rattle.parfield.specs.HashOrder.{IdsFollowNumbers};

/// States the law that IDs are ordered as little-endian numbers. Does nothing.
pub fn ids_follow_numbers()
    ensures { IdsFollowNumbers }
{}
