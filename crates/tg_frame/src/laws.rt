ghost use Rattle.tg_frame.specs.laws.Laws.{
  ParametersDrawn,
  ParametersApart,
  DrawnStays,
  LocalsApart,
};

/// The laws that the homes of a frame stay apart: those of its parameters are drawn and differ, and
/// none of them is the home of a local variable that is drawn later.
pub fn homes_stay_apart()
    ensures drawn { ParametersDrawn }
    ensures parameters { ParametersApart }
    ensures stays { DrawnStays }
    ensures locals { LocalsApart }
{}
