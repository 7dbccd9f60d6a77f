// W-210, the evening session (17.4, 17.5): what it changes of alerts and of moves, by value.
ghost use Rattle.std.specs.Prelude.{◌≡◌, true};
ghost use Rattle.paper.specs.Ranges.{valid_session};
ghost use Rattle.paper_desk.specs.Evening.{is_evening, alert_seconds, move_allowed, session_moved};

use paper::{Session, Statics};

pub fn is_evening(session: Session) -> bool
    ensures { result ≡ is_evening session }
{
    matches!(session, Session::Evening(_))
}

// "The evening keeps .. its own seconds u": the seconds that an alert needs.
pub fn alert_seconds(st: Statics, session: Session) -> u64
    ensures { result ≡ alert_seconds st session }
{
    match session {
        Session::Main => st.u,
        Session::Evening(_) => st.uevening,
    }
}

// "Moves then are allowed only with Autochange yes and only until the security's evening maximum .. is reached."
pub fn move_allowed(st: Statics, session: Session) -> bool
    ensures { result ≡ move_allowed st session }
{
    match session {
        Session::Main => true,
        Session::Evening(made) => st.autochange & (made < st.eveningmax),
    }
}

// "the evening moves made": an evening move counts, whichever its side.
pub fn session_moved(session: Session) -> Session
    requires { valid_session session ≡ true }
    ensures { result ≡ session_moved session }
{
    match session {
        Session::Main => Session::Main,
        Session::Evening(made) => Session::Evening(made + 1),
    }
}
