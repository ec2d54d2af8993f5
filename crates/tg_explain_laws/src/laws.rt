ghost use Rattle.tg_explain_laws.specs.laws.Asked.{FaultsAreAsked};
ghost use Rattle.tg_explain_laws.specs.laws.First.{FirstStays};
ghost use Rattle.tg_explain_laws.specs.laws.Seen.{DeclaredWithin};
ghost use Rattle.tg_explain_laws.specs.laws.Spans.{NamesAreCovered, SpansNest};
ghost use Rattle.tg_explain_laws.specs.laws.Told.{ToldTypesAreAsked};

/// Laws of spans: in the tree of a text the spans of a part's parts stand within its own, one after
/// another, so an expression's covers all names in it. It does nothing.
pub fn spans_nest()
    ensures nest { SpansNest }
    ensures names { NamesAreCovered }
{}

/// A law: what is declared in an expression whose parts nest is seen only within its span, so no
/// name outside is taken for it. It does nothing.
pub fn declared_within()
    ensures { DeclaredWithin }
{}

/// A law: what is found broken among the facts before a part is what is found behind it, so the
/// types that are told are the first in the order in which a program is checked. It does nothing.
pub fn first_stays()
    ensures { FirstStays }
{}

/// A law: a fault of types that don't go together, of a value that isn't there or of a nil alone is
/// of a part of which typing asks something, and its type breaks that. It does nothing.
pub fn faults_are_asked()
    ensures { FaultsAreAsked }
{
    tg_explain_types::types_are_told();
}

/// A law: where a program's fault is of such a rule, the two types that explanations tell are what
/// typing asks of a part at the fault's byte, and that part's type. It does nothing.
pub fn told_types_are_asked()
    ensures { ToldTypesAreAsked }
{
    tg_explain_types::types_are_told();
}
