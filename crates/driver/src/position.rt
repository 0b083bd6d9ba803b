// What a record runs under, its phase by number, the record in another phase and further on, and what it tells at the end.
ghost use Rattle.std.specs.Prelude.{◌≡◌};
ghost use Rattle.driver.specs.declared.Phase.TheVariants as P;
ghost use Rattle.driver.specs.declared.Answer.TheVariants.{Evaluate, Refused};
ghost use Rattle.workspace.specs.Vectors.{number};
ghost use Rattle.driver.specs.Numbers.{refusal_number};
ghost use Rattle.driver.specs.Calls as calls;

use crate::{Answer, Figures, History, Iteration, Next, Phase, Record, Refusal, Staging};
use family::{Family, Setting};
use workspace::{Arguments, Vector};

// The phases are numbered from 0 in their order.
pub fn phase_number(phase: Phase) -> u64
    ensures { result ≡ calls.phase_number phase }
{
    phase as u64
}

impl History {
    // The last accepted step over the present one, 0 without a history.
    #[tactic(auto, unfolding(crate::specs::Calls::quotient_of))]
    fn quotient(self, step: f64) -> f64
        ensures { result ≡ calls.quotient_of self step }
    {
        if self.present {
            self.previous_accepted_step / step
        } else {
            0.0
        }
    }
}

impl Record {
    pub(crate) fn setting(self) -> Setting
        ensures { result ≡ calls.setting_of self }
    {
        Setting {
            family: Family::from(self.family),
            history: self.history.present,
            quotient: self.history.quotient(self.arguments.step),
        }
    }

    // It stands, and this vector is to be evaluated at this time.
    pub(crate) fn asks(self, time: f64, vector: Vector) -> Next
        ensures { result ≡ record { answer = Evaluate time (number vector); «record» = self } }
    {
        Next {
            answer: Answer::Evaluate {
                time,
                vector: vector as usize,
            },
            record: self,
        }
    }

    // It stands, and the call is refused, or ends, with this.
    pub(crate) fn refused(self, refusal: Refusal) -> Next
        ensures { result ≡ record { answer = Refused (refusal_number refusal); «record» = self } }
    {
        Next {
            answer: Answer::Refused(u64::from(refusal)),
            record: self,
        }
    }

    #[tactic(auto, unfolding(crate::specs::Calls::in_phase))]
    pub(crate) fn in_phase(self, phase: Phase) -> Record
        ensures { result ≡ calls.in_phase phase self }
    {
        Record { phase, ..self }
    }

    // The history marked absent: the step that it held stands, and nothing reads it.
    fn without_history(self) -> Record
        ensures { result ≡ calls.without_history self }
    {
        let history = History {
            present: false,
            ..self.history
        };
        Record { history, ..self }
    }

    #[tactic(auto, unfolding(crate::specs::Calls::in_phase))]
    pub(crate) fn abandoned(self) -> Record
        ensures { result ≡ calls.without_history (calls.in_phase P.Empty self) }
    {
        self.without_history().in_phase(Phase::Empty)
    }

    // The history that the family takes on.
    #[tactic(auto, unfolding(crate::specs::Calls::history_after))]
    fn history_after(self) -> History
        ensures { result ≡ calls.history_after self }
    {
        if Family::from(self.family).keeps_older() {
            History {
                present: true,
                previous_accepted_step: self.arguments.step,
            }
        } else {
            self.history
        }
    }

    // Ready, with that history.
    #[tactic(auto, unfolding(crate::specs::Calls::in_phase))]
    pub(crate) fn accepted(self) -> Record
        ensures { result ≡ calls.with_history (calls.history_after self) (calls.in_phase P.Ready self) }
    {
        Record {
            history: self.history_after(),
            ..self.in_phase(Phase::Ready)
        }
    }

    // Waiting for the derivative of a state that is kept at this time, without a history.
    #[tactic(auto, unfolding(crate::specs::Calls::first_at, crate::specs::Calls::at_time))]
    pub(crate) fn first_at(self, phase: Phase, family: u64, n: usize, time: f64) -> Record
        ensures { result ≡ calls.first_at phase family n time self }
    {
        let arguments = Arguments {
            time,
            ..self.arguments
        };
        Record {
            family,
            n,
            phase,
            arguments,
            ..self.without_history()
        }
    }

    // Before a pass of the power iteration.
    #[tactic(auto, unfolding(crate::specs::Calls::at_pass))]
    pub(crate) fn at_pass(
        self,
        arguments: Arguments,
        pass: u64,
        perturbation: f64,
        previous_radius: f64,
    ) -> Record
        ensures { result ≡ calls.at_pass arguments pass perturbation previous_radius self }
    {
        let iteration = Iteration {
            pass,
            perturbation,
            previous_radius,
            scaled_radius: 0.0,
        };
        Record {
            phase: Phase::Pass,
            arguments,
            iteration,
            ..self
        }
    }

    // The iteration has found the scaled radius.
    #[tactic(auto, unfolding(crate::specs::Calls::with_radius))]
    pub(crate) fn with_radius(self, scaled_radius: f64) -> Record
        ensures { result ≡ calls.with_radius scaled_radius self }
    {
        let iteration = Iteration {
            scaled_radius,
            ..self.iteration
        };
        Record { iteration, ..self }
    }

    // Before a stage.
    #[tactic(auto, unfolding(crate::specs::Calls::at_stage))]
    pub(crate) fn at_stage(self, staging: Staging) -> Record
        ensures { result ≡ calls.at_stage staging.stages staging.stage staging.recurrence self }
    {
        Record {
            phase: Phase::Stage,
            staging,
            ..self
        }
    }

    // What a finished attempt tells: its norm, and s, k and r as the record holds them.
    pub(crate) fn figures(self, norm: f64) -> Figures
        ensures { result ≡ calls.figures_of norm self.staging.stages self.iteration.pass self.iteration.scaled_radius }
    {
        Figures {
            norm,
            stages: self.staging.stages,
            passes: self.iteration.pass,
            scaled_radius: self.iteration.scaled_radius,
        }
    }
}
