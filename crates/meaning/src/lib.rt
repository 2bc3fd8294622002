#![tactic(auto)]
// The types that the definitions in specs/ share with the code.
ghost use Rattle.std.specs.Prelude.{◌≡◌};
ghost use Rattle.meaning.specs.Refused.{number, number_of};

// A class id.
#[derive(Clone, Copy)]
pub struct Id(pub u32);

// A register's number, never taken for a class id.
#[derive(Clone, Copy, Default)]
pub struct Reg(pub u32);

// Where the areas of a table stand, read once: document 01's counts I, C, N and K, the five
// starts, and the words of a class record.
#[derive(Clone, Copy)]
pub struct Layout {
    pub i: usize,
    pub c: usize,
    pub n: usize,
    pub k: usize,
    pub width: usize,
    pub find: usize,
    pub classes: usize,
    pub nodes: usize,
    pub children: usize,
    pub index: usize,
}

// What an entry answers: document 01's number, and the rows written, or the class, or 0.
// The C interface has the number as it is.
#[repr(C)]
#[derive(Clone, Copy)]
pub struct Answer {
    pub number: u32,
    pub count: u64,
}

// Why words are refused, by document 01's number.
#[derive(Clone, Copy, Debug, PartialEq, Eq)]
pub enum Refusal {
    // The table is shorter than its header, or an offset or its length is wrong.
    TableShape = 1,
    // A count of the table is over its limit.
    TableLimits = 2,
    // The find list breaks its rule.
    FindList = 3,
    // The class records break theirs.
    ClassRecords = 4,
    // The nodes or the children break theirs.
    NodeRecords = 5,
    // The index breaks its own.
    NodeIndex = 6,
    // The pattern is shorter than its header, or an offset or its length is wrong.
    PatternShape = 7,
    // A count of the pattern, or of its occurrences, is over its limit.
    PatternLimits = 8,
    // A node of the pattern breaks its rule.
    PatternNodes = 9,
}

impl From<Refusal> for u32 {
    ghost from_gives = { λ r n. n ≡ number r };

    fn from(r: Refusal) -> u32 {
        r as u32
    }
}

// The number of what checking gave: 0 where nothing is refused.
pub fn number_of<T: Drop>(checked: Result<T, Refusal>) -> u32
    ensures { result ≡ number_of checked }
{
    match checked {
        Ok(_) => 0,
        Err(r) => u32::from(r),
    }
}
