//! What a driver keeps of a request.
use grant_values::GrantValue;

/// A request of a process that waits for a driver's device. It waits in the grant that the process
/// keeps for the driver (Levy et al., SOSP 2017, section 4), beside whatever else stands there.
pub trait Request: Copy {
    ghost use Rattle.std.specs.Prelude.{◌≡◌, None, Some};
    ghost use Rattle.grant_values.specs.Values.{fresh_by};
    ghost use Rattle.driver_model.specs.Requests.{RequestKind};

    /// What the driver keeps of a process.
    type Value: GrantValue;

    /// Where the request is kept, and the list in which its process waits.
    ghost request_kind: { RequestKind Self };

    /// The request that waits in what the driver keeps, if one does.
    fn waiting_in(value: &Self::Value) -> Option<Self>
        ensures { result ≡ request_kind.told (Self.Value.kept value.now) };

    /// Has the request wait there. All else stays.
    fn wait_in(self, value: &mut Self::Value)
        ensures { Self.Value.kept value.new
            ≡ request_kind.with_request (Some self) (Self.Value.kept value.old) };

    /// Has none wait there. All else stays.
    fn take_out(value: &mut Self::Value)
        ensures { Self.Value.kept value.new
            ≡ request_kind.with_request None (Self.Value.kept value.old) };

    /// None waits where the driver has just been entered.
    ghost none_at_first: { request_kind.told (fresh_by Self.Value.driver) ≡ None };
}
