ghost use Rattle.parwindow.specs.Crc32.{CrcRolls};
ghost use Rattle.parwindow.specs.Until.{NoTails, PushesOneByOne};
ghost use Rattle.parwindow.specs.TailLengths.{TailsFit};
ghost use Rattle.parwindow.specs.Window.{ZerosFill};

/// States the law by which the CRC-32 of a window is updated when a byte falls out. Does nothing.
pub fn crc_removal_law()
    ensures { CrcRolls }
{}

/// States the law that pushing many bytes at once is pushing them one after another. Does nothing.
pub fn push_until_law()
    ensures { PushesOneByOne }
{}

/// States the law that zeros fill up a window to its size. Does nothing.
pub fn zero_fill_law()
    ensures { ZerosFill }
{}

/// States the law that a window may have the short-slice lengths of an index. Does nothing.
pub fn tails_law()
    ensures { TailsFit }
{}

/// States the law that a window without tails stops only at the CRC-32s of its whole
/// content. Does nothing.
pub fn no_tails_law()
    ensures { NoTails }
{}
