//! Theorems about histories that are applied to a host.
ghost use Rattle.std.specs.Prelude.{◌≡◌, ℕ, List};
ghost use Rattle.realm_model.specs.History.{IsLegal};
ghost use Rattle.host_ledger.specs.View.{HostView};
ghost use Rattle.history_text.specs.declared.opening.Opening.{Opening};
ghost use Rattle.realm_host.specs.declared.why_not.WhyNot.{WhyNot};
ghost use Rattle.view_program.specs.Applied.{IsHistory, IsLegalText, OpensNone, IsNoEvent, IsEventRefused, StopsAt};

/// Proves that any history that a host accepts is legal. The history's lines after the first are the texts of the
/// host's events, in sequence.
pub fn what_is_applied_is_legal()
    ensures { (lines : List (List ℕ)) (o : Opening) (host : HostView) → IsHistory lines o host → IsLegalText lines host }
{}

/// Proves that applying a history to a host does not stop at any of the history's lines. It would stop if no machine
/// were opened, at a line that is not an event, or at an event that is refused. A sequence of lines is the history of
/// at most one machine and one host.
pub fn histories_do_not_stop()
    ensures machine { (lines : List (List ℕ)) (o p : Opening) (host other : HostView) → IsHistory lines o host → IsHistory lines p other → o ≡ p }
    ensures host { (lines : List (List ℕ)) (o p : Opening) (host other : HostView) → IsHistory lines o host → IsHistory lines p other → host ≡ other }
    ensures opens { (lines : List (List ℕ)) (o : Opening) (host : HostView) → IsHistory lines o host → OpensNone lines → ⊥ }
    ensures events { (lines : List (List ℕ)) (o : Opening) (host : HostView) (number : ℕ) → IsHistory lines o host → StopsAt (λ it line. IsNoEvent line) lines number → ⊥ }
    ensures accepted { (lines : List (List ℕ)) (o : Opening) (host : HostView) (number : ℕ) (why : WhyNot) → IsHistory lines o host → StopsAt (IsEventRefused why) lines number → ⊥ }
{}
