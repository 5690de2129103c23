ghost use Rattle.std.specs.Prelude.{◌≡◌, ◌≤◌, ℕ, List, [], Some};
ghost use Rattle.cops_types.specs.TenantConfig.{TenantConfig};
ghost use Rattle.cops_model.specs.Log.{LogStep};
ghost use Rattle.cops_model.specs.Request.{Request};
ghost use Rattle.cops_model.specs.Session.{Running, Session};
ghost use Rattle.cops_session.specs.Kept.{KeptSession};
ghost use Rattle.cops_session.specs.SessionStands.{SessionStandsFor};
ghost use Rattle.cops_causal.specs.CallBounds.{MakesFewCalls, SteppedAt, StepsMake, most_calls};

/// Theorem: a put makes at most one node call, and a get at most two for each key in each attempt,
/// whatever the nodes reply. The call that brings the answer counts. This holds of each log of a
/// request's steps, and of each run of `Session::step` from the beginning of a request.
pub fn requests_make_few_calls()
    ensures of_a_log { (config : TenantConfig) (request : Request) (log : List LogStep) →
        MakesFewCalls config request log }
    ensures of_steps { (config : TenantConfig) (old : KeptSession) (session : Session)
        (running : Running) (steps : List SteppedAt) (calls : ℕ) →
        SessionStandsFor config old session → session.running ≡ Some running → running.log ≡ [] →
        StepsMake old steps calls → calls ≤ most_calls config running.action }
{}
