//! A law of what is printed: the contract of a function that does nothing else.

ghost use Rattle.rating.specs.Laws.{PiecesAreRated};

/// A table of records may be cut between two of its rows, and each piece be rated by itself under
/// the header: behind the header the lines of the pieces, one after the other, are those of the
/// whole table, and what is counted adds up.
pub fn pieces_are_rated()
    ensures { PiecesAreRated }
{}
