//! The simulator as a static library: a script in, its answers out. `tools/page` puts it into a page.
#![tactic(auto)]

ghost use Rattle.std.specs.Prelude.{◌≡◌, ◌≢◌, ◌≤◌, ◌++◌, ℕ, List, length, take, drop};
ghost use Rattle.lan.specs.Scripts.{IsReplay};

use std::alloc::Global;

/// Plays a script of two hosts, as `lan::replay` does. The answers go to the first bytes of `answers`, as far as there is room; `count` is how
/// many bytes they have, so that who gave too little room can play once more.
///
/// The status is 0 at the end of the script, 1 after a line that ends it early, which the last line of the answers says, and 2 where no memory
/// was left. Then nothing is written.
#[unsafe(no_mangle)]
pub extern "C" fn sim_page_play(
    alloc: Global,
    script: &[u8],
    answers: &mut [u8],
    count: &mut usize,
) -> u32
    ensures status { result ≤ 2 }
    ensures plays { result ≢ 2 → (output : List ℕ)
        × IsReplay script.now output result
        × (count.new ≡ length output)
        × (answers.new ≡ take (length answers.old) output ++ drop (length output) answers.old) }
    ensures unplayed { result ≡ 2 → (count.new ≡ count.old) × (answers.new ≡ answers.old) }
{
    let mut script = script;
    let mut output = Vec::new(alloc);
    let status = lan::replay(alloc, &mut script, &mut output);
    if status != 2 {
        *count = output.len();
        write_front(output.as_slice(), answers);
    }
    u32::from(status)
}

/// Writes bytes over the first ones of a slice, as many as it has room for.
fn write_front(bytes: &[u8], to: &mut [u8])
    ensures { to.new ≡ take (length to.old) bytes.now ++ drop (length bytes.now) to.old }
{
    let room = bytes.len().min(to.len());
    to[..room].copy_from_slice(&bytes[..room]);
}
