// Laws of the outside. Each is a function with an empty body, whose `ensures` is the law.

ghost use Rattle.gw_wire.specs.MemoryLink.{ScriptBytesAreKept};
ghost use Rattle.gw_wire.specs.Shuffle.{SidesAreFound, SecondSidesAreFound, OtherLinksDiffer};

/// Of two rows of acts that interleave, the filters by a link's number give back the link's own row, where the other
/// row has nothing of that link.
pub fn sides_are_found()
    ensures { SidesAreFound }
{}

/// The same of the second row.
pub fn second_sides_are_found()
    ensures { SecondSidesAreFound }
{}

/// The acts on one link are none of a link with another number.
pub fn other_links_differ()
    ensures { OtherLinksDiffer }
{}

/// No byte of a link's script in memory is lost or given twice.
pub fn script_bytes_are_kept()
    ensures { ScriptBytesAreKept }
{}
