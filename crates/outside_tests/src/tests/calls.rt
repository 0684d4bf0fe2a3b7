use outside::{Failed, Link};

/// The buffer has room for four bytes.
#[derive(Clone, Copy)]
pub enum Call<'a> {
    Read(Result<&'a [u8], Failed>),
    Write(&'a [u8], Result<usize, Failed>),
    Now(u64),
}

/// Whether the link answers the call so.
pub fn answers<L: Link>(link: &mut L, call: Call) -> bool {
    link.between();
    match call {
        Call::Read(wanted) => {
            let mut into = [0; 4];
            match (link.read(&mut into), wanted) {
                (Ok(count), Ok(wanted)) => &into[..count] == wanted,
                (Err(_), Err(_)) => true,
                _ => false,
            }
        }
        Call::Write(piece, wanted) => link.write(piece) == wanted,
        Call::Now(wanted) => link.now() == wanted,
    }
}

/// The first call that the link answers otherwise.
pub fn first_wrong<L: Link>(link: &mut L, calls: &[Call]) -> Option<usize> {
    for (place, call) in calls.iter().enumerate() {
        if !answers(link, *call) {
            return Some(place);
        }
    }
    None
}
