ghost use Rattle.std.specs.Prelude.{◌≡◌, MatchResult};
ghost use Rattle.meaning.specs.Words.{layout_of};
ghost use Rattle.meaning.specs.Good.{Sound};
ghost use Rattle.meaning.specs.Refusal.{refusal_of};
ghost use Rattle.meaning.specs.Refused.{number};
ghost use Rattle.table.specs.Once.{sound_once};

use meaning::Refusal;
use words::areas::Areas;

// The areas of a table that was checked: what a good table promises holds of them.
#[derive(Clone, Copy)]
pub struct Table<'a> {
    pub areas: Areas<'a>,
    pub ghost sound: { Sound areas.words.now areas.layout } by { sound_once areas.words.now areas.layout },
}

impl<'a> Table<'a> {
    // The table that the words are, or why they are none.
    pub fn open(words: &'a [u32]) -> Result<Self, Refusal>
        ensures { MatchResult result (λ t. (refusal_of words.now ≡ 0) × (t.areas.words.now ≡ words.now) × (t.areas.layout ≡ layout_of words.now)) (λ e. number e ≡ refusal_of words.now) }
    {
        let layout = checker::check(words)?;
        let areas = Areas { words, layout };
        Ok(Table { areas })
    }
}
