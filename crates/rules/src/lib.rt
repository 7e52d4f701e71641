// What the calls answer, and the sizes of a log, of a tree and of work. What they mean is said in specs/.
#![tactic(auto)]

ghost use Rattle.std.specs.Prelude.{◌≡◌};
ghost use Rattle.rules.specs.Refusals.{number_of};
ghost use Rattle.rules.specs.TreeBlock.{kind_of, op_of, operator_of};

// Why a call refuses: the rows of the table of refusals, in their order.
#[derive(Clone, Copy, Debug, PartialEq, Eq)]
pub enum Reason {
    LogLength,
    OutLength,
    WorkLength,
    LogCheck,
    BadRecord,
    BadCode,
    NoRecord,
    TreeBlock,
    BadTree,
    EpisodeLength,
    EpisodeCode,
    BlockFull,
}

// The number of the row.
impl From<Reason> for u8 {
    ghost from_gives = { λ reason number. number ≡ number_of reason };

    fn from(reason: Reason) -> u8 {
        match reason {
            Reason::LogLength => 1,
            Reason::OutLength => 2,
            Reason::WorkLength => 3,
            Reason::LogCheck => 4,
            Reason::BadRecord => 5,
            Reason::BadCode => 6,
            Reason::NoRecord => 7,
            Reason::TreeBlock => 8,
            Reason::BadTree => 9,
            Reason::EpisodeLength => 10,
            Reason::EpisodeCode => 11,
            Reason::BlockFull => 12,
        }
    }
}

// A refusal: its reason and its place.
#[derive(Clone, Copy, Debug, PartialEq, Eq)]
pub struct Refusal {
    pub reason: Reason,
    pub place: usize,
}

// The number that a call gives, or why it refuses.
pub type Answer = Result<usize, Refusal>;

// What judging tells of an episode.
#[derive(Clone, Copy, Debug, PartialEq, Eq)]
pub enum Verdict {
    Fits,
    Misfit,
}

// The operators of a tree.
#[derive(Clone, Copy, Debug, PartialEq, Eq)]
pub enum Operator {
    Choice,
    Sequence,
    Parallel,
    Loop,
}

// The kinds of a tree's entries: numbers, since they are bytes of document 01's block, and are matched on as they lie there.
pub const SILENT: u8 = 1;

pub const ACTIVITY: u8 = 2;

pub const CHOICE: u8 = 3;

pub const SEQUENCE: u8 = 4;

pub const PARALLEL: u8 = 5;

pub const LOOP: u8 = 6;

// The kind of an operator's entry.
impl From<Operator> for u8 {
    ghost from_gives = { λ operator kind. kind ≡ kind_of (op_of operator) };

    fn from(operator: Operator) -> u8 {
        match operator {
            Operator::Choice => CHOICE,
            Operator::Sequence => SEQUENCE,
            Operator::Parallel => PARALLEL,
            Operator::Loop => LOOP,
        }
    }
}

// The operator of an entry's kind; any other byte is taken for a loop's, as `operator_of` says.
impl From<u8> for Operator {
    ghost from_gives = { λ kind operator. op_of operator ≡ operator_of kind };

    fn from(kind: u8) -> Operator {
        match kind {
            CHOICE => Operator::Choice,
            SEQUENCE => Operator::Sequence,
            PARALLEL => Operator::Parallel,
            _ => Operator::Loop,
        }
    }
}

// The largest code, the number of codes, the heartbeat among them, and the first byte that is no code.
pub const TOP_CODE: u8 = 31;

pub const CODE_COUNT: usize = 32;

pub const NO_CODE: u8 = 32;

// The code that mining and judging leave out.
pub const HEARTBEAT: u8 = 31;

// The most events of an episode, heartbeats counted, and the places before, between and after them.
pub const EVENT_COUNT: usize = 63;

pub const PLACE_COUNT: usize = 64;

// The bytes of a block of a log, and the place of its check.
pub const BLOCK_SIZE: usize = 512;

pub const CHECK_PLACE: usize = 508;

// The most blocks of a log, and their bytes.
pub const BLOCK_COUNT: usize = 16;

pub const LOG_SIZE: usize = 8192;

// The bytes of a tree's block, and its entries.
pub const TREE_SIZE: usize = 512;

pub const ENTRY_COUNT: usize = 127;

// The bytes of work that mining asks for, and the numbers of work that judging does.
pub const MINE_WORK: usize = 16384;

pub const JUDGE_WORK: usize = 8128;
