// The distance test.
ghost use Rattle.std.specs.Prelude.{◌≡◌, ◌+◌, ◌<◌};
ghost use Rattle.lattice.specs.Refusal.{number_of};
ghost use Rattle.lattice.specs.DistanceTest.{nothing, after, max_test_strength, max_test_classes, test_settings_ok, test_number};
ghost use Rattle.lattice.specs.Scanning.{scan_of};
ghost use Rattle.lattice.specs.Answer.{IsDistanceTest, distance_verdict, distance_triple, distance_tried};

use crate::range::within;
use crate::refusal::Refusal;
use crate::scan::scan_order;
use crate::settings::Settings;

pub const MAX_TEST_STRENGTH: usize = 18;

pub const MAX_TEST_CLASSES: usize = 4096;

// A difference of two cells.
#[derive(Clone, Copy)]
pub struct Triple {
    pub row: i32,
    pub plane: i32,
    pub column: i32,
}

// What trying triples finds: the first that fails, where one does, and how many were tried, it included.
#[derive(Clone, Copy)]
pub struct Trial {
    pub failing: Option<Triple>,
    pub tried: u32,
}

impl Trial {
    // No triple fails among n.
    pub(crate) fn nothing(n: u32) -> Trial
        ensures { scan_of result ≡ after n nothing }
    {
        Trial {
            failing: None,
            tried: n,
        }
    }

    // The same with n triples tried before.
    pub(crate) fn after(self, n: u32) -> Trial
        requires { (self.tried < 1000000) × (n < 1000000) }
        ensures { scan_of result ≡ after n (scan_of self) }
    {
        Trial {
            tried: self.tried + n,
            ..self
        }
    }
}

// The verdict of an answer: yes where no triple fails, no beside a refusal.
pub fn holds(answer: Result<Trial, Refusal>) -> bool
    ensures { result ≡ distance_verdict answer }
{
    match answer {
        Ok(trial) => trial.failing.is_none(),
        Err(_) => false,
    }
}

// The triple that fails, (0, 0, 0) where none does.
pub fn failing(answer: Result<Trial, Refusal>) -> Triple
    ensures { result ≡ distance_triple answer }
{
    let none = Triple {
        row: 0,
        plane: 0,
        column: 0,
    };
    match answer {
        Ok(trial) => trial.failing.unwrap_or(none),
        Err(_) => none,
    }
}

// The number of triples tried, 0 beside a refusal.
pub fn tried(answer: Result<Trial, Refusal>) -> u32
    ensures { result ≡ distance_tried answer }
{
    match answer {
        Ok(trial) => trial.tried,
        Err(_) => 0,
    }
}

// Is m from 1 to 4,096, and are b and c below it?
#[tactic(auto, unfolding(crate::specs::DistanceTest::test_settings_ok))]
fn settings_ok(m: usize, b: usize, c: usize) -> bool
    ensures { result ≡ test_settings_ok m b c }
{
    within(1, MAX_TEST_CLASSES, m) && b < m && c < m
}

// The tests of the numbers: 2, 9.
fn distance_tests(m: usize, b: usize, c: usize, t: usize) -> Result<(), Refusal>
    ensures { number_of result ≡ test_number m b c t }
{
    if !within(1, MAX_TEST_STRENGTH, t) {
        return Err(Refusal::BadStrength);
    }
    if !settings_ok(m, b, c) {
        return Err(Refusal::BadSettings);
    }
    Ok(())
}

// Do the settings keep different cells of one class at least t apart? They do where no triple of the order fails. The refusals 2
// and 9 come first.
pub fn distance_test(m: usize, b: usize, c: usize, t: usize) -> Result<Trial, Refusal>
    ensures distance_test { IsDistanceTest m b c t result }
    ensures max_test_strength_value { MAX_TEST_STRENGTH ≡ max_test_strength }
    ensures max_test_classes_value { MAX_TEST_CLASSES ≡ max_test_classes }
{
    distance_tests(m, b, c, t)?;
    let k = Settings {
        m: m as u16,
        b: b as u16,
        c: c as u16,
    };
    Ok(scan_order(k, (t - 1) as u32))
}
