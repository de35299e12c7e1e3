ghost use Rattle.gsm_text.specs.Laws.{CodesAreSmall, CodesAreWritten, ReadsBack, UnpacksPacked};
ghost use Rattle.gsm_text.specs.Examples.{TheAlphabet, TheExtension, NoCodes, APackedText};

/// The law that a text whose characters have codes is read back from them.
pub fn codes_are_read_back()
    ensures { ReadsBack }
{}

/// The law that the codes of a text have 7 bits.
pub fn codes_are_small()
    ensures { CodesAreSmall }
{}

/// The law that each code but the escape is that of its character.
pub fn codes_are_written()
    ensures { CodesAreWritten }
{}

/// The law that packed codes are unpacked.
pub fn packed_codes_are_unpacked()
    ensures { UnpacksPacked }
{}

/// The 128 codes, as characters.
pub fn the_alphabet()
    ensures { TheAlphabet }
{}

/// The ten codes behind the escape, both ways, and what else stands behind an escape.
pub fn the_extension()
    ensures { TheExtension }
{}

/// Characters that have no codes.
pub fn what_has_no_codes()
    ensures { NoCodes }
{}

/// Texts that are packed and unpacked.
pub fn a_packed_text()
    ensures { APackedText }
{}
