ghost use Rattle.proxy_examples.specs.Pieces.{PiecesMakeNoDifference};

pub fn pieces_make_no_difference()
    ensures { PiecesMakeNoDifference }
{}
