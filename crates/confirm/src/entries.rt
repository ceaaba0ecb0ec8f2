// A manifest's entries, written from the file's own headers: an entry is copied from the header that stands at the
// link's place.
ghost use Rattle.std.specs.Prelude.{◌≡◌, ◌+◌, ◌*◌, ◌≤◌, length, take, drop};
ghost use Rattle.octets.specs.Over.{over};
ghost use Rattle.manifest.specs.At.{Inside, entry_at, entries_at};
ghost use Rattle.manifest.specs.Payload.{entries_end};

// Some bytes of the file, at a place of a buffer.
pub fn copy_at(buf: &mut [u8], at: usize, file: &[u8], from: usize, n: usize)
    requires { (at + n ≤ length buf.old) × (from + n ≤ length file.now) }
    ensures { buf.new ≡ over buf.old at (take n (drop from file.now)) }
{
    octets::copy(&mut buf[at..], &file[from..from + n]);
}

// Two words of the file, at a place of a buffer: so few, and a number that the compiler knows, are moved at once.
fn copy_words(buf: &mut [u8], at: usize, file: &[u8], from: usize)
    requires { (at + 16 ≤ length buf.old) × (from + 16 ≤ length file.now) }
    ensures { buf.new ≡ over buf.old at (take 16 (drop from file.now)) }
{
    buf[at..at + 16].copy_from_slice(&file[from..from + 16]);
}

// The entry of the link at an offset, with its state: offset, id, payload length, hash, type, state, flags, zeros.
pub fn put_entry(buf: &mut [u8], at: usize, file: &[u8], offset: usize, state: u8)
    requires { (at + 48 ≤ length buf.old) × (offset + 64 ≤ length file.now) }
    ensures { buf.new ≡ over buf.old at (entry_at file.now offset state) }
{
    let kind = file[offset + segment::fields::KIND];
    let flags = octets::le::u16_at(file, offset + segment::fields::FLAGS);
    octets::le::put(buf, at, 8, offset as u64);
    copy_words(
        buf,
        at + manifest::fields::ID,
        file,
        offset + segment::fields::ID,
    );
    copy_words(
        buf,
        at + manifest::fields::HASH,
        file,
        offset + segment::fields::HASH,
    );
    buf[at + manifest::fields::ENTRY_KIND] = kind;
    buf[at + manifest::fields::STATE] = state;
    octets::le::put(buf, at + manifest::fields::FLAGS, 2, flags as u64);
    octets::le::put(buf, at + manifest::fields::ZEROS, 4, 0);
}

// The entries of the links at some offsets, right behind the record's eight bytes.
pub fn put_entries(buf: &mut [u8], file: &[u8], offsets: &[u64], states: &[u8])
    requires offsets_in_bounds { (entries_end (length offsets.now) ≤ length buf.old)
        × (length offsets.now ≤ length states.now) }
    requires inside { Inside file.now offsets.now }
    ensures { buf.new ≡ over buf.old 8
        (entries_at file.now offsets.now states.now) }
{
    for (i, (offset, state)) in offsets.iter().zip(states).enumerate() {
        put_entry(
            buf,
            manifest::fields::RECORD_HEAD + manifest::fields::ENTRY_SIZE * i,
            file,
            *offset as usize,
            *state,
        );
    }
}
