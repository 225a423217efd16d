#![tactic(auto)]
// The archive for C: each function of the C interface under its own name, with its promise. mcs48_c says what it does. (Two crates, since
// reread links mcs48_c without these exports, and no crate is both a library and an archive.)
ghost use Rattle.std.specs.Prelude.{◌≡◌, length};
ghost use Rattle.machine.specs.State.{power_up};
ghost use Rattle.mcs48_c.specs.Bytes.{holding};
ghost use Rattle.mcs48_c.specs.Calls.{after_run, after_step, line_from, listed_from, ram_from, read_from, run_from, step_from, totals_after};
ghost use Rattle.mcs48_c.specs.Packed.{packed_line, packed_read, packed_step};

#[unsafe(no_mangle)]
pub extern "C" fn mcs48_power_up(state: &mut [u8])
    ensures { state.new ≡ holding state.old power_up }
{
    mcs48_c::mcs48_power_up(state)
}

#[unsafe(no_mangle)]
pub extern "C" fn mcs48_read(set: u32, program: &[u8], address: usize) -> u64
    ensures { result ≡ packed_read program.now address (read_from set program.now address) }
{
    mcs48_c::mcs48_read(set, program, address)
}

#[unsafe(no_mangle)]
pub extern "C" fn mcs48_list_line(set: u32, program: &[u8], address: usize, line: &mut [u8]) -> u64
    ensures answer { result ≡ packed_line (listed_from set program.now address (length line.old)) }
    ensures left { line.new ≡ line_from set program.now address line.old }
{
    mcs48_c::mcs48_list_line(set, program, address, line)
}

#[unsafe(no_mangle)]
pub extern "C" fn mcs48_run(
    set: u32,
    program: &[u8],
    outside: &[u8],
    ram: &mut [u8],
    state: &mut [u8],
    samples: &[u32],
    totals: &mut [u64],
) -> u64
    ensures answer { result ≡ (run_from set program.now outside.now ram.old state.old samples.now).ran.number }
    ensures memory { ram.new ≡ (run_from set program.now outside.now ram.old state.old samples.now).ram }
    ensures left { state.new ≡ after_run state.old (run_from set program.now outside.now ram.old state.old samples.now).ran }
    ensures sums { totals.new ≡ totals_after totals.old (run_from set program.now outside.now ram.old state.old samples.now).ran }
{
    mcs48_c::mcs48_run(set, program, outside, ram, state, samples, totals)
}

#[unsafe(no_mangle)]
pub extern "C" fn mcs48_step(
    set: u32,
    program: &[u8],
    outside: &[u8],
    ram: &mut [u8],
    state: &mut [u8],
    first: u32,
    second: u32,
) -> u64
    ensures answer { result ≡ packed_step (step_from set program.now outside.now ram.old state.old first second) }
    ensures memory { ram.new ≡ ram_from set program.now outside.now ram.old state.old first second }
    ensures left { state.new ≡ after_step state.old (step_from set program.now outside.now ram.old state.old first second) }
{
    mcs48_c::mcs48_step(set, program, outside, ram, state, first, second)
}
