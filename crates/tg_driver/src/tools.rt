use tg_irc_definition::SpillPolicy;
use tg_profiler::Watcher;

/// What the program is handed besides the outside. All of it is dropped by the end of the call.
#[derive(Drop)]
pub struct Tools {
    /// The policy that chooses what the register allocator spills. It is asked in each function that
    /// is compiled.
    pub policy: Box<dyn SpillPolicy>,
    /// The watchers that see the run where the words ask for it, and whose reports are told in this
    /// order.
    pub watchers: Vec<Box<dyn Watcher>>,
}
