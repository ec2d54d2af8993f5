ghost use Rattle.tg_escape.specs.laws.Laws.{UsesJoin};

/// A law: what a part of a program finds is in what the whole finds.
pub fn uses_join()
    ensures { UsesJoin }
{}
