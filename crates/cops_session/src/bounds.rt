ghost use Rattle.std.specs.Prelude.{List};
ghost use Rattle.cops_types.specs.TenantConfig.{TenantConfig};
ghost use Rattle.cops_model.specs.Log.{LogStep};
ghost use Rattle.cops_session.specs.Bounds.{IsBounded};
ghost use Rattle.cops_model.specs.Request.{Request};

/// Theorem: whatever the nodes reply, a request without an answer has had no reply if it is a put,
/// and at most two for each key in each attempt if it is a transaction.
pub fn replies_are_few()
    ensures { (config : TenantConfig) (request : Request) (log : List LogStep) →
        IsBounded config request log }
{}
