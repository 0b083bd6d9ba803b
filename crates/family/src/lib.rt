// family.rs: the families, their permitted stage counts and their stage rules.
#![tactic(auto)]

ghost use Rattle.std.specs.Prelude.{◌≡◌, false, ◌+◌, ◌-◌, ◌^◌, min};
ghost use Rattle.ieee.specs.Double.{nought};
ghost use Rattle.table.specs.Smallest.{smallest};
ghost use Rattle.rkmc2_threshold.specs.Table.{threshold};
ghost use Rattle.family.specs.declared.StageRule.TheVariants.{RoundedUp};
ghost use Rattle.family.specs.Family as spec;
ghost use Rattle.family.specs.Family.{family_of};

// The largest count of any family, RKMC2's and TSRKC2's.
pub const MOST_STAGES: u64 = 1000;

#[derive(Clone, Copy, PartialEq, Eq)]
pub enum Family {
    RKC,
    RKL1,
    RKL2,
    RKG1,
    RKG2,
    RKMC2,
    TSRKC2,
}

// Numbered 1 to 7 in that order; any other number is taken as 5.
impl From<u64> for Family {
    ghost from_gives = { λ number family. family ≡ family_of number };

    #[tactic(auto, unfolding(crate::specs::Family::family_of))]
    fn from(number: u64) -> Family {
        match number {
            1 => Family::RKC,
            2 => Family::RKL1,
            3 => Family::RKL2,
            4 => Family::RKG1,
            6 => Family::RKMC2,
            7 => Family::TSRKC2,
            _ => Family::RKG2,
        }
    }
}

// Whether a family of this number is carried.
#[tactic(auto, unfolding(crate::specs::Family::known))]
pub fn known(number: u64) -> bool
    ensures { result ≡ spec.known number }
{
    matches!(number, 1..=7)
}

// What an attempt runs under: its family, whether there is a history, a step accepted before, and the quotient q of that step
// and the present one, 0 without a history. TSRKC2 alone reads the last two. A flag and not an Option: what is proved of the
// rows and of the candidate is proved of every quotient, beside either flag.
#[derive(Clone, Copy)]
pub struct Setting {
    pub family: Family,
    pub history: bool,
    pub quotient: f64,
}

impl Setting {
    // An attempt of this family without a history.
    #[tactic(auto, using(crate::proofs::Constants::constants))]
    pub fn without_history(family: Family) -> Setting
        ensures { result ≡ record { family = family; history = false; quotient = nought } }
    {
        Setting {
            family,
            history: false,
            quotient: 0.0,
        }
    }
}

// How the whole number before limits follows from the scaled radius r.
#[derive(Clone, Copy)]
pub enum StageRule {
    // floor(sqrt(slope * r + 1)) + 1
    RoundedDown { slope: f64 },
    // ceil((sqrt(offset + slope * r) - shift) * 0.5)
    RoundedUp { offset: f64, slope: f64, shift: f64 },
    // the smallest count from 3 to 999 whose threshold is at least r, else 1000
    ByThreshold,
    // floor(sqrt(1 + slope * r * (1 - q + sqrt(1 + q * (q - bend))))) + 1
    WithQuotient { slope: f64, bend: f64 },
}

// The order of a row's terms, and how it weighs the two derivatives: RKC's in one product, RKL's and RKG's in a product
// each, both with the state's term third; RKMC2's in one product, with the state's term first; TSRKC2's has neither the
// state nor the first derivative.
#[derive(Clone, Copy)]
pub enum RowForm {
    ChebyshevRow,
    OrthogonalRow,
    InitialFirstRow,
    PlainRow,
}

// Which derivatives the error takes beside the state and the candidate: the first alone, and its norm is then divided by
// s; the first and the last; or the last alone, with the whole divided by `over`.
#[derive(Clone, Copy)]
pub enum ErrorForm {
    FirstDerivative,
    BothDerivatives,
    LastDerivative { over: f64 },
}

// What the candidate is made of: the last stage; a combination of it with the state, the stage two before it and the
// first derivative; or one with the older state.
#[derive(Clone, Copy)]
pub enum CandidateForm {
    LastStage,
    Combined,
    WithOlder,
}

// A family's facts: the permitted counts, the stage rule, whether a need of more than the largest count is refused, whether
// its area keeps an older state, and its forms.
#[derive(Clone, Copy)]
pub struct Facts {
    pub smallest: u64,
    pub largest: u64,
    pub odd_only: bool,
    pub rule: StageRule,
    pub refuses_more: bool,
    pub keeps_older: bool,
    pub row: RowForm,
    pub error: ErrorForm,
    pub candidate: CandidateForm,
}

// The facts that RKL and RKG share; the other families say how theirs differ.
fn orthogonal(smallest: u64, largest: u64, odd_only: bool, rule: StageRule) -> Facts
    ensures { result ≡ spec.orthogonal smallest largest odd_only rule }
{
    Facts {
        smallest,
        largest,
        odd_only,
        rule,
        refuses_more: false,
        keeps_older: false,
        row: RowForm::OrthogonalRow,
        error: ErrorForm::FirstDerivative,
        candidate: CandidateForm::LastStage,
    }
}

fn rounded_up(offset: f64, slope: f64, shift: f64) -> StageRule
    ensures { result ≡ RoundedUp offset slope shift }
{
    StageRule::RoundedUp {
        offset,
        slope,
        shift,
    }
}

// The smallest count from 3 to 999 whose threshold is at least r, else 1000. By halving: std's searches are of slices, and a
// threshold is read by a function.
fn by_threshold(r: f64) -> u64
    ensures { result ≡ smallest threshold r 997 3 }
{
    let mut low: u64 = 3;
    let mut high: u64 = 1000;
    while low < high {
        let middle = (low + high) / 2;
        let t = rkmc2_threshold::threshold(middle);
        if r <= t {
            high = middle;
        } else {
            low = middle + 1;
        }
    }
    low
}

impl StageRule {
    // The r that the rule takes: a NaN and a negative one count as 0, but in TSRKC2.
    #[tactic(auto, unfolding(crate::specs::Family::radius_for))]
    fn radius(self, r: f64) -> f64
        ensures { result ≡ spec.radius_for self r }
    {
        match self {
            StageRule::WithQuotient { .. } => r,
            _ => ieee::max(r, 0.0),
        }
    }

    // The whole number before limits, or the largest u64 where it passes that.
    #[tactic(auto, using(crate::proofs::Constants::constants, crate::proofs::Saturated::cast_kept, crate::proofs::ByThreshold::rule_kept), unfolding(crate::specs::Family::by_rule))]
    fn count(self, q: f64, r: f64) -> u64
        ensures { result ≡ min (spec.by_rule self q r) (2 ^ 64 - 1) }
    {
        match self {
            StageRule::RoundedDown { slope } => {
                ieee::saturating_u64(ieee::floor(ieee::sqrt(slope * r + 1.0))).saturating_add(1)
            }
            StageRule::RoundedUp {
                offset,
                slope,
                shift,
            } => {
                let root = ieee::sqrt(offset + slope * r);
                ieee::saturating_u64(ieee::ceil((root - shift) * 0.5))
            }
            StageRule::ByThreshold => by_threshold(r),
            StageRule::WithQuotient { slope, bend } => {
                let inner = ieee::sqrt(1.0 + q * (q - bend));
                let root = ieee::sqrt(1.0 + slope * r * (1.0 - q + inner));
                ieee::saturating_u64(ieee::floor(root)).saturating_add(1)
            }
        }
    }
}

impl Family {
    #[tactic(auto, using(crate::proofs::Constants::constants, crate::proofs::Constants::factors), unfolding(crate::specs::Family::facts_of))]
    pub fn facts(self) -> Facts
        ensures { result ≡ spec.facts_of self }
    {
        match self {
            Family::RKC => Facts {
                row: RowForm::ChebyshevRow,
                error: ErrorForm::BothDerivatives,
                ..orthogonal(2, 200, false, StageRule::RoundedDown { slope: 1.54 })
            },
            Family::RKL1 => orthogonal(3, 199, true, rounded_up(1.0, 4.0, 1.0)),
            Family::RKL2 => orthogonal(3, 199, true, rounded_up(9.0, 8.0, 1.0)),
            // RKG's slopes are half of the Rust's.
            Family::RKG1 => orthogonal(2, 200, false, rounded_up(9.0, 8.0, 3.0)),
            Family::RKG2 => orthogonal(3, 200, false, rounded_up(25.0, 12.0, 3.0)),
            Family::RKMC2 => Facts {
                row: RowForm::InitialFirstRow,
                error: ErrorForm::LastDerivative { over: 10.0 },
                candidate: CandidateForm::Combined,
                ..orthogonal(3, MOST_STAGES, false, StageRule::ByThreshold)
            },
            Family::TSRKC2 => Facts {
                refuses_more: true,
                keeps_older: true,
                row: RowForm::PlainRow,
                error: ErrorForm::LastDerivative { over: 3.0 },
                candidate: CandidateForm::WithOlder,
                ..orthogonal(
                    2,
                    MOST_STAGES,
                    false,
                    StageRule::WithQuotient {
                        slope: 0.759782816506459,
                        bend: 0.598626091572911,
                    },
                )
            },
        }
    }

    // Whether the family keeps the state accepted before the present one.
    #[tactic(auto, unfolding(crate::specs::Family::keeps_older))]
    pub fn keeps_older(self) -> bool
        ensures { result ≡ spec.keeps_older self }
    {
        self.facts().keeps_older
    }

    // Whether the family may run s stages.
    #[tactic(auto, unfolding(crate::specs::Family::permitted, crate::specs::Family::smallest_count, crate::specs::Family::largest_count, crate::specs::Family::odd_only))]
    pub fn permits(self, s: u64) -> bool
        ensures { result ≡ spec.permitted self s }
    {
        let own = self.facts();
        own.smallest <= s && s <= own.largest && (!own.odd_only || s % 2 == 1)
    }

    // An even number goes up by one, where the family runs odd counts only.
    #[tactic(auto, unfolding(crate::specs::Family::odd_step, crate::specs::Family::odd_only))]
    fn odd_step(self, stages: u64) -> u64
        ensures { result ≡ spec.odd_step self stages }
    {
        if self.facts().odd_only && stages % 2 == 0 {
            stages + 1
        } else {
            stages
        }
    }

    #[tactic(auto, unfolding(crate::specs::Family::limited, crate::specs::Family::smallest_count, crate::specs::Family::largest_count))]
    fn limited(self, stages: u64) -> u64
        ensures { result ≡ spec.limited self stages }
    {
        let own = self.facts();
        self.odd_step(stages.max(own.smallest)).min(own.largest)
    }

    #[tactic(auto, unfolding(crate::specs::Family::before_limits))]
    fn number_of_stages(self, q: f64, r: f64) -> u64
        ensures { result ≡ min (spec.number_of_stages self q r) (2 ^ 64 - 1) }
    {
        let rule = self.facts().rule;
        rule.count(q, rule.radius(r))
    }

    // How many stages the family runs for the quotient q and the scaled radius |step| * radius.
    #[tactic(auto, using(crate::proofs::Saturated::limited_saturated), unfolding(crate::specs::Family::stage_count))]
    pub fn stages(self, q: f64, scaled_radius: f64) -> u64
        ensures { result ≡ spec.stage_count self q scaled_radius }
    {
        self.limited(self.number_of_stages(q, scaled_radius))
    }

    // Whether they would be more than the largest count, in a family that refuses such a need.
    #[tactic(auto, using(crate::proofs::Saturated::exceeds_saturated), unfolding(crate::specs::Family::exceeds, crate::specs::Family::largest_count))]
    pub fn exceeds(self, q: f64, scaled_radius: f64) -> bool
        ensures { result ≡ spec.exceeds self q scaled_radius }
    {
        let own = self.facts();
        own.refuses_more && own.largest < self.number_of_stages(q, scaled_radius)
    }
}

// ---- the same by a family's number, of which any but 1 to 7 is taken as 5

// What an attempt of the family of this number runs under.
pub fn setting_of(family: u64, history: bool, quotient: f64) -> Setting
    ensures { result ≡ spec.setting family history quotient }
{
    Setting {
        family: Family::from(family),
        history,
        quotient,
    }
}

pub fn without_history(family: u64) -> Setting
    ensures { result ≡ spec.setting family false nought }
{
    Setting::without_history(Family::from(family))
}

pub fn facts_of(family: u64) -> Facts
    ensures { result ≡ spec.facts_of (family_of family) }
{
    Family::from(family).facts()
}

pub fn keeps_older(family: u64) -> bool
    ensures { result ≡ spec.keeps_older (family_of family) }
{
    Family::from(family).keeps_older()
}

pub fn permitted(family: u64, s: u64) -> bool
    ensures { result ≡ spec.permitted (family_of family) s }
{
    Family::from(family).permits(s)
}

pub fn stages(family: u64, q: f64, scaled_radius: f64) -> u64
    ensures { result ≡ spec.stage_count (family_of family) q scaled_radius }
{
    Family::from(family).stages(q, scaled_radius)
}

pub fn exceeds(family: u64, q: f64, scaled_radius: f64) -> bool
    ensures { result ≡ spec.exceeds (family_of family) q scaled_radius }
{
    Family::from(family).exceeds(q, scaled_radius)
}
