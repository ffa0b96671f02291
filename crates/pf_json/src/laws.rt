//! Laws of the definitions: functions with empty bodies, whose contracts are the laws.

ghost use Rattle.pf_json.specs.Laws.{InPieces, OneForEach};

/// The objects of a text are those of its pieces, whatever these are.
pub fn in_pieces()
    ensures { InPieces }
{}

/// There is one object for each line that ends in a text, on a line of its own.
pub fn one_for_each()
    ensures { OneForEach }
{}
