// The number of workers that a word tells.
ghost use Rattle.std.specs.Prelude.{◌≡◌, ◌≤◌, IfSome};
ghost use Rattle.command_line.specs.Table.{worker_count};
ghost use Rattle.prove_run.specs.declared.many.TheConstants.{MOST_WORKERS};

use itoa::Buffer;
use prove_run::MOST_WORKERS;

/// How many workers do a tree together.
#[derive(Clone, Copy)]
pub struct Workers {
    pub count: u32,
    ghost some: { 1 ≤ count },
    ghost few: { count ≤ MOST_WORKERS },
}

/// The number that a word tells. It has one spelling, so neither a sign nor a zero before it.
#[tactic(auto, unfolding(crate::specs::Table::number_in))]
pub fn worker_count(word: &str) -> Option<u32>
    ensures number { result ≡ worker_count word.now }
    ensures some { IfSome result (λ count. 1 ≤ count) }
    ensures few { IfSome result (λ count. count ≤ MOST_WORKERS) }
{
    for count in 1..MOST_WORKERS + 1 {
        let mut number = Buffer::new();
        if number.format(count) == word {
            return Some(count);
        }
    }
    None
}
