//! What of a script is a board's own.
ghost use Rattle.std.specs.Prelude.{◌≡◌};
ghost use Rattle.board_opening.specs.Settings.{visible_settings};

use kernel_model::Settings;
use script_text::Script;

/// What of a script's settings processes can see.
pub(crate) fn settings_of(script: &Script) -> Settings
    ensures { result ≡ visible_settings script.now }
{
    Settings {
        leds: script.leds,
        buttons: script.buttons,
        start: script.start,
        storage: script.storage,
        policy: script.policy,
        strict: script.strict,
    }
}
