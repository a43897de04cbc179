ghost use Rattle.std.specs.Prelude.{◌≡◌, ◌<◌, ◌≤◌, ◌^◌, IfOk};
ghost use Rattle.st_schedule_words.specs.Words.{words_behind};
ghost use Rattle.st_schedule.specs.Parser.{Gives};
ghost use Rattle.st_schedule.specs.Parser as reading;

use crate::fault::ReadError;
use crate::next_word::{ends, form_at, number_at};
use st_base::Config;
use st_messages::Counts;

/// The greatest value of a setting, 2^63 - 1.
const MOST_SETTING: u64 = 9_223_372_036_854_775_807;

fn setting_at(rest: &[u8]) -> Result<(u64, &[u8]), ReadError>
    ensures { Gives (λ x. (x.0, words_behind x.1.now)) result (reading.setting_at (words_behind rest.now)) }
{
    number_at(0, MOST_SETTING, rest)
}

#[tactic(auto, unfolding(crate::specs::Parser::three_at))]
fn three_at(rest: &[u8]) -> Result<((u64, u64, u64), &[u8]), ReadError>
    ensures { Gives (λ x. (x.0, words_behind x.1.now)) result (reading.three_at (words_behind rest.now)) }
{
    let (first, rest) = setting_at(rest)?;
    let (second, rest) = setting_at(rest)?;
    let (third, rest) = setting_at(rest)?;
    Ok(((first, second, third), rest))
}

/// The settings, the counts and the form of a head, read from the words after `tank`. The grain is
/// a word of the second form; under the first form it is 0.
#[tactic(auto, unfolding(crate::specs::Parser::head_at, crate::specs::Parser::config_at, crate::specs::Parser::rate_at, crate::specs::Parser::grain_at, crate::specs::Parser::counts_at))]
pub(crate) fn head_at(rest: &[u8]) -> Result<(Config, Counts, u8), ReadError>
    ensures { Gives (λ x. x) result (reading.head_at (words_behind rest.now)) }
{
    let (form, rest) = form_at(rest)?;
    let ((lease, renew, quiesce), rest) = three_at(rest)?;
    let ((flush, demand, retry), rest) = three_at(rest)?;
    let (num, rest) = setting_at(rest)?;
    let (den, rest) = setting_at(rest)?;
    let (grain, rest) = if form == 2 {
        setting_at(rest)?
    } else {
        (0, rest)
    };
    let (clients, rest) = number_at(1, 16, rest)?;
    let (servers, rest) = number_at(1, 4, rest)?;
    let (disks, rest) = number_at(servers, 8, rest)?;
    let (blocks, rest) = number_at(1, 4096, rest)?;
    ends(rest)?;
    let config = Config {
        lease,
        renew,
        quiesce,
        flush,
        demand,
        retry,
        num,
        den,
        grain,
    };
    let counts = Counts {
        clients: clients as u16,
        servers: servers as u16,
        disks: disks as u16,
        blocks: blocks as u32,
    };
    Ok((config, counts, form))
}
