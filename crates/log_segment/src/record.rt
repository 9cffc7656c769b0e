ghost use Rattle.std.specs.Prelude.{◌≡◌, ◌+◌, ◌++◌, ◌∷◌, [], length, IfOk};
ghost use Rattle.bus_types.specs.Window.{span_size};
ghost use Rattle.log_segment.specs.Image.{head_bytes, record_bytes};

use bus_types::{NoMemory, Window};
use event_codec::write_window;
use std::alloc::Global;

/// The bytes of a segment without a window, behind its gate and with the closed gate behind them.
#[tactic(auto, unfolding(crate::specs::Image::head_bytes))]
pub(crate) fn head_text(floor: u64) -> [u8; 17]
    ensures { result ≡ head_bytes floor ++ 0 ∷ [] }
{
    let scn = floor.to_be_bytes();
    [
        b'D', b'B', b'U', b'S', b'L', b'O', b'G', b'1', scn[0], scn[1], scn[2], scn[3], scn[4],
        scn[5], scn[6], scn[7], 0,
    ]
}

/// The bytes of a record, with the closed gate behind them.
#[tactic(auto, unfolding(crate::specs::Image::record_bytes))]
pub(crate) fn record_text(alloc: Global, window: &Window) -> Result<Vec<u8>, NoMemory>
    ensures text { IfOk result (λ text. text.items ≡ record_bytes window.now ++ 0 ∷ []) }
    ensures size { IfOk result (λ text. length text.items ≡ span_size window.now + 5) }
{
    let size = window.size();
    let mut text = Vec::with_capacity(alloc, size as usize + 5)?;
    text.extend_from_slice(&(size as u32).to_be_bytes())?;
    write_window(alloc, window, &mut text)?;
    text.push(0)?;
    Ok(text)
}
