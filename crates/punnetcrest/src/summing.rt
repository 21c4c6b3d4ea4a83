// The fault sum, as seven numbers.
ghost use Rattle.std.specs.Prelude.{◌≡◌};
ghost use Rattle.punnetcrest.specs.Summing.{sum_words, faults_summed};

use faults::FaultSum;

const SUM_WORDS: usize = 7;

// Highest, at 1, at 2, at 3, set, emergency, agrees.
fn words_of(found: FaultSum) -> [u32; SUM_WORDS]
    ensures { result ≡ sum_words found }
{
    [
        found.highest,
        found.at_1,
        found.at_2,
        found.at_3,
        found.set,
        u32::from(found.emergency),
        u32::from(found.agrees),
    ]
}

// Writes the sum over the raw counts of 1901 to 1927.
#[unsafe(no_mangle)]
pub extern "C" fn pc_fault_sum(counts: &[u32], sum: &mut [u32; SUM_WORDS]) -> u32
    ensures { (result, sum.new) ≡ faults_summed counts.now sum.old }
{
    match faults::sum(counts) {
        Ok(found) => {
            *sum = words_of(found);
            0
        }
        Err(why) => u32::from(why),
    }
}
