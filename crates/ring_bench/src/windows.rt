ghost use Rattle.std.specs.Prelude.{◌≡◌, ◌<◌, IfSome};

use bus_types::{Change, Key, Payload, Window};
use std::alloc::Global;

/// The window of an SCN above 0, behind the SCN before: one put of a payload of so many bytes.
pub(crate) fn window_of(alloc: Global, scn: u64, payload: u64) -> Option<Window>
    requires { 0 < scn }
    ensures { IfSome result (λ window. window.scn ≡ scn) }
{
    let bytes = vec![in alloc; 0; payload as usize].ok()?;
    let mut changes = Vec::new(alloc);
    changes
        .push(Change {
            source: 1,
            key: Key::Long(scn),
            put: Some(Payload::from_vec(bytes)?),
        })
        .ok()?;
    Window::new(scn, scn - 1, changes).ok()
}
