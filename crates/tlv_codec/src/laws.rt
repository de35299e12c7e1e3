ghost use Rattle.std.specs.Prelude.{◌≡◌};
ghost use Rattle.tlv_codec.specs.Laws.{IsOfOneList, IsOfOneBreak, GivesBack, IsWhatWasRead, IsFirstValue};

/// The law that bytes are the text of at most one list of TLVs.
pub fn text_is_of_one_list()
    ensures { IsOfOneList }
{}

/// The law that bytes which aren't whole TLVs break off in one place alone.
pub fn text_breaks_in_one_place()
    ensures { IsOfOneBreak }
{}

/// The law that reading gives back what was written.
pub fn reading_gives_back()
    ensures { GivesBack }
{}

/// The law that bytes which are read are the text of what was read.
pub fn written_is_what_was_read()
    ensures { IsWhatWasRead }
{}

/// The law that the first place of a kind holds the first value of that kind.
pub fn found_is_first_value()
    ensures { IsFirstValue }
{}
