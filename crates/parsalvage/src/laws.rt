ghost use Rattle.parsalvage.specs.MagicPlaces.{MagicsNeverOverlap, EachMagicIsFound};

/// States the law that two occurrences of the magic never overlap, so a search that doesn't look
/// for overlaps finds each. Does nothing.
pub fn magic_law()
    ensures apart { MagicsNeverOverlap }
    ensures found { EachMagicIsFound }
{}
