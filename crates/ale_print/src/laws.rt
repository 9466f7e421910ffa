ghost use Rattle.ale_print.specs.Naming.{NamesAreReadBack, PlainIsAtom};
ghost use Rattle.ale_print.specs.Sameness.{TextsTell, VisibleTexts};

/// The law of printed names: what is written of a name is one token of the language, and that stands for the name; and
/// a name is plain exactly where the whole of it reads as an atom.
pub fn printed_names()
    ensures read_back { NamesAreReadBack }
    ensures plain { PlainIsAtom }
{}

/// The law of printed texts: of one signature and one list of names, structures with one text have the same visible
/// part up to the numbers of their nodes, roots and differing pairs included.
pub fn texts_tell()
    ensures { TextsTell }
{}

/// The law of what a text leaves out: a structure and its visible part have one text.
pub fn visible_texts()
    ensures { VisibleTexts }
{}
