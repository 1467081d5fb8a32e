// The call for C hosts as C calls it: an export over the library's call, under the same clauses. include/rawgunshet.h declares it.
#![tactic(auto)]

ghost use Rattle.std.specs.Prelude.{◌≡◌};
ghost use Rattle.runs.specs.Steps.{lent_at};
ghost use Rattle.runs.specs.Calls.{run};
ghost use Rattle.runs.specs.Hosts.{lent, handed};

use runs::host;
use runs::records::Record;

// A run of at most `budget` steps over a record that is lent.
#[unsafe(no_mangle)]
pub extern "C" fn rawgunshet_run(
    memory: &mut [u8],
    registers: &mut [u64],
    rec: &mut Record,
    budget: u32,
) -> u64
    ensures { lent (lent_at memory.new registers.new rec.new) result
        ≡ handed (run budget (lent_at memory.old registers.old rec.old)) }
{
    host::rawgunshet_run(memory, registers, rec, budget)
}
