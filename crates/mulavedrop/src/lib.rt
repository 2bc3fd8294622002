#![tactic(auto)]
// The C surface: one function an entry, with nothing asked of the caller. include/mulavedrop.h
// declares them.
ghost use Rattle.std.specs.Prelude.{◌≡◌};
ghost use Rattle.meaning.specs.Entries.{check_table};

use meaning::Answer;

// A table's number: 0 if it is good.
#[unsafe(no_mangle)]
pub extern "C" fn mulavedrop_check_table(table: &[u32]) -> Answer
    ensures { result ≡ check_table table.now }
{
    Answer {
        number: meaning::number_of(checker::check(table)),
        count: 0,
    }
}
