//! Decides how a file is written, by the kind of file that has its name now.

ghost use Rattle.std.specs.Prelude.{◌≡◌};
ghost use Rattle.product_files.specs.Way.{is_number as is_number_of, is_numbered as is_numbered_of, is_descriptor as is_descriptor_of, way_of_found as way_of_found_of, way_of, page_way_of};
ghost use Rattle.std.specs.Str.{bytes_eq};

/// The kind of file with a name. A link is not followed.
#[derive(Clone, Copy)]
pub enum Found {
    Nothing,
    File,
    Link,
    /// A named pipe.
    Fifo,
    CharacterDevice,
    BlockDevice,
    Socket,
    Folder,
}

/// How a file is written.
#[derive(Clone, Copy)]
pub enum Way {
    /// As a new file with a temporary name, which is renamed once it is complete.
    Beside,
    /// Under its own name.
    Directly,
    /// Not at all.
    Refused,
}

fn is(word: &[u8], other: &[u8]) -> bool
    ensures { result ≡ bytes_eq word.now other.now }
{
    word == other
}

/// Returns whether the bytes are a decimal number.
fn is_number(bytes: &[u8]) -> bool
    ensures { result ≡ is_number_of bytes.now }
{
    if bytes.is_empty() {
        return false;
    }
    for i in 0..bytes.len() {
        if !bytes[i].is_ascii_digit() {
            return false;
        }
    }
    true
}

/// Returns whether a name is a prefix followed by a number.
fn is_numbered(front: &[u8], name: &[u8]) -> bool
    ensures { result ≡ is_numbered_of front.now name.now }
{
    if name.len() < front.len() {
        return false;
    }
    is(&name[..front.len()], front) && is_number(&name[front.len()..])
}

/// Returns whether a name is one of the system's names for a descriptor of the calling process.
fn is_descriptor(name: &[u8]) -> bool
    ensures { result ≡ is_descriptor_of name.now }
{
    is(name, b"/dev/stdin")
        || is(name, b"/dev/stdout")
        || is(name, b"/dev/stderr")
        || is_numbered(b"/dev/fd/", name)
        || is_numbered(b"/proc/self/fd/", name)
}

fn way_of_found(found: Found) -> Way
    ensures { result ≡ way_of_found_of found }
{
    match found {
        Found::Nothing => Way::Beside,
        Found::File => Way::Beside,
        Found::Link => Way::Beside,
        Found::Fifo => Way::Directly,
        Found::CharacterDevice => Way::Directly,
        Found::BlockDevice => Way::Refused,
        Found::Socket => Way::Refused,
        Found::Folder => Way::Refused,
    }
}

/// Returns how a file with a name given by the user is written.
pub fn way_to(name: &[u8], found: Found) -> Way
    ensures { result ≡ way_of name.now found }
{
    if is_descriptor(name) {
        return Way::Directly;
    }
    way_of_found(found)
}

/// Returns how a file in a folder given by the user is written. Everything except a folder is
/// replaced.
pub fn page_way(found: Found) -> Way
    ensures { result ≡ page_way_of found }
{
    match found {
        Found::Folder => Way::Refused,
        _ => Way::Beside,
    }
}
