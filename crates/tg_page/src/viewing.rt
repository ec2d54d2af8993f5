ghost use Rattle.std.specs.Prelude.{◌≡◌};
ghost use Rattle.tg_machine_state.specs.State.{load_word};
ghost use Rattle.tg_page.specs.Looks.{AreRegisters, AreWordsAt, register_told, word_told};

use tg_isa::Reg;
use tg_machine::Machine;

/// Tells the registers by their numbers, then hi and lo.
pub(crate) fn tell_registers(machine: &Machine, registers: &mut [u32])
    ensures { AreRegisters machine.now.state registers.new }
{
    for at in 0..registers.len() {
        registers[at] = register_at(machine, at);
    }
}

/// The register that is told at a place.
fn register_at(machine: &Machine, at: usize) -> u32
    ensures { result ≡ register_told machine.now.state at }
{
    if at < 32 {
        return machine.register(Reg::new(at as u8));
    }
    match at {
        32 => machine.hi(),
        33 => machine.lo(),
        _ => 0,
    }
}

/// Tells the words at addresses.
pub(crate) fn tell_words(machine: &Machine, addresses: &[u32], words: &mut [u64])
    ensures { AreWordsAt machine.now.state addresses.now words.new }
{
    for at in 0..words.len().min(addresses.len()) {
        words[at] = word_at(machine, addresses[at]);
    }
}

/// The word at an address, or 2 ^ 32 where none is served.
fn word_at(machine: &Machine, address: u32) -> u64
    ensures { result ≡ word_told (load_word machine.now.state address) }
{
    match machine.load_word(address) {
        Ok(word) => u64::from(word),
        Err(_) => 4_294_967_296,
    }
}
