// A name read from an image: its bytes as they are. (It is written by print::put_name.)
ghost use Rattle.std.specs.Prelude.{◌≤◌, ◌≡◌, IfSome};
ghost use Rattle.model.specs.Limits.{name_limit};
ghost use Rattle.model.specs.Told.{or_number};
ghost use Rattle.model.specs.Image.{read_name};
ghost use Rattle.model.specs.Stored.{bytes_of};
ghost use Rattle.image.specs.Views.{read_told};

use facts::limits::NAME_LIMIT;
use model::Name;

// Takes a name of that length off the front of the bytes.
pub fn read_name(bytes: &mut &[u8], len: u64) -> Option<Name>
    ensures told { read_told bytes_of result bytes.new.now ≡ or_number 14 (read_name len bytes.old.now) }
    ensures shaped { IfSome result (λ n. n.len ≤ name_limit) }
{
    let n = len as usize;
    if NAME_LIMIT < n {
        return None;
    }
    let text = bytes.split_off(..n)?;
    let mut kept = [0; NAME_LIMIT];
    kept[..n].copy_from_slice(text);
    Some(Name {
        bytes: kept,
        len: len as u8,
    })
}
