ghost use Rattle.tg_program_generator_laws.specs.laws.Laws.{GeneratedIsAccepted};

/// The law that the generated programs of 1 to 1000 functions are accepted. It does nothing.
pub fn generated_is_accepted()
    ensures { GeneratedIsAccepted }
{}
