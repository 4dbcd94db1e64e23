// The functions of the crate firmware, under their names for C: they stand here once more, since a crate is a library or a static library.
// `firmware/build` makes the archive, and firmware/shelundiyi.h declares them.
#![tactic(auto)]

ghost use Rattle.std.specs.Prelude.{◌≡◌};
ghost use Rattle.rules.specs.PairSlots.{answer_number};
ghost use Rattle.image.specs.Stores.{loaded};
ghost use Rattle.firmware.specs.Firmware.{Stepped, SavedFrom, RetiredStore};

// One event on the pair in the store: `firmware::pair_step`.
#[unsafe(no_mangle)]
pub extern "C" fn pair_step(program: &[u8], store: &mut [u8], event: &[u8], entry: &mut [u8]) -> u8
    ensures { Stepped program.now store.old event.now entry.old result store.new entry.new }
{
    firmware::pair_step(program, store, event, entry)
}

// Saves the pair in the store into a buffer: `firmware::pair_save`.
#[unsafe(no_mangle)]
pub extern "C" fn pair_save(store: &[u8], buf: &mut [u8]) -> u8
    ensures { SavedFrom store.now buf.old result buf.new }
{
    firmware::pair_save(store, buf)
}

// Whether these bytes are a pair that the monitor takes: `firmware::pair_load`.
#[unsafe(no_mangle)]
pub extern "C" fn pair_load(image: &[u8]) -> u8
    ensures { result ≡ answer_number (loaded image.now).answer }
{
    firmware::pair_load(image)
}

// Retires the store: `firmware::pair_retire`.
#[unsafe(no_mangle)]
pub extern "C" fn pair_retire(program: &[u8], l: u16, store: &mut [u8]) -> u8
    ensures { RetiredStore program.now l store.old result store.new }
{
    firmware::pair_retire(program, l, store)
}
