// The host's files, as they are after loads and stores.
use crate::fault::ShelfFail;
use crate::host::FileShelf;
use crate::outside::Shelf;
use std::os::unix::fs::{MetadataExt, PermissionsExt, symlink};
use std::path::PathBuf;
use std::rt::HostRuntime;
use std::test::Fail;
use std::{fs, io};

// Longer than what is read at once, and no multiple of it.
const LONG: usize = 700_001;

// A folder for one test, and a shelf.
#[derive(Drop)]
struct Desk {
    rt: HostRuntime,
    room: PathBuf,
    shelf: FileShelf<HostRuntime>,
}

impl Desk {
    fn new(rt: HostRuntime, name: &str) -> io::Result<Desk> {
        let number = std::process::id(rt.process());
        let name = format!(in rt.alloc(); "pfr-shelf-{number}-{name}")?;
        let room = std::env::temp_dir(&rt)?.as_path().join(rt.alloc(), name)?;
        fs::create_dir(&rt, room.as_path())?;
        let shelf = FileShelf::new(rt.clone()?);
        Ok(Desk { rt, room, shelf })
    }

    // An absolute name stays as it is.
    fn path(&self, name: &str) -> io::Result<PathBuf> {
        Ok(self.room.as_path().join(self.rt.alloc(), name)?)
    }

    fn link(&self, name: &str, target: &str) -> io::Result<()> {
        symlink(&self.rt, target, self.path(name)?)
    }

    fn stores(&mut self, name: &str, bytes: &[u8]) -> io::Result<bool> {
        let path = self.path(name)?;
        Ok(self.shelf.store(path.as_str(), bytes) == Ok(()))
    }

    fn holds(&self, name: &str, bytes: &[u8]) -> io::Result<bool> {
        let found = fs::read(&self.rt, self.path(name)?)?;
        Ok(found.as_slice() == bytes)
    }

    // How many bytes a load gives, all of which are to be 7.
    fn loads(&mut self, name: &str, limit: u32) -> Result<usize, ShelfFail> {
        let path = self.path(name).map_err(|_| ShelfFail::NoMemory)?;
        let bytes = self.shelf.load(self.rt.alloc(), path.as_str(), limit)?;
        Ok(bytes.iter().filter(|byte| **byte == 7).count())
    }

    fn mode(&self, name: &str) -> io::Result<u32> {
        let found = fs::metadata(&self.rt, self.path(name)?)?;
        Ok(found.permissions().mode() & 0o7777)
    }

    // A number that each file that is written anew has of its own.
    fn inode(&self, name: &str) -> io::Result<u64> {
        Ok(fs::metadata(&self.rt, self.path(name)?)?.ino())
    }

    fn is_link(&self, name: &str) -> io::Result<bool> {
        Ok(fs::symlink_metadata(&self.rt, self.path(name)?)?.is_symlink())
    }

    fn count(&self) -> io::Result<usize> {
        Ok(fs::read_dir(&self.rt, self.room.as_path())?.count())
    }

    fn clear(&self) -> io::Result<()> {
        fs::remove_dir_all(&self.rt, self.room.as_path())
    }
}

#[test]
fn replaces_a_file(rt: HostRuntime) -> Result<(), Fail> {
    let mut desk = Desk::new(rt.clone()?, "replaces")?;
    assert!(rt; desk.stores("image", b"first")?);
    fs::set_permissions(&rt, desk.path("image")?, fs::Permissions::from_mode(0o640))?;
    assert!(rt; desk.stores("image", b"and then")?);
    assert!(rt; desk.holds("image", b"and then")?);
    assert_eq!(rt; desk.mode("image")?, 0o640);
    assert_eq!(rt; desk.count()?, 1);
    desk.clear()?;
    Ok(())
}

#[test]
fn leaves_a_file_of_these_bytes(rt: HostRuntime) -> Result<(), Fail> {
    let mut desk = Desk::new(rt.clone()?, "same")?;
    let mut image = vec![in rt.alloc(); 7u8; LONG]?;
    assert!(rt; desk.stores("image", image.as_slice())?);
    let old = desk.inode("image")?;
    assert!(rt; desk.stores("image", image.as_slice())?);
    assert_eq!(rt; desk.inode("image")?, old);
    // another last byte, and a byte less
    image.pop();
    image.push(8)?;
    assert!(rt; desk.stores("image", image.as_slice())?);
    assert!(rt; desk.holds("image", image.as_slice())?);
    assert!(rt; desk.inode("image")? != old);
    image.pop();
    assert!(rt; desk.stores("image", image.as_slice())?);
    assert!(rt; desk.holds("image", image.as_slice())?);
    assert_eq!(rt; desk.count()?, 1);
    desk.clear()?;
    Ok(())
}

#[test]
fn keeps_a_link(rt: HostRuntime) -> Result<(), Fail> {
    let mut desk = Desk::new(rt.clone()?, "link")?;
    desk.link("link", "target")?;
    // at first the link leads to nothing
    for bytes in [b"first".as_slice(), b"and then"] {
        assert!(rt; desk.stores("link", bytes)?);
        assert!(rt; desk.holds("target", bytes)?);
        assert!(rt; desk.is_link("link")?);
        assert_eq!(rt; desk.count()?, 2);
    }
    desk.clear()?;
    Ok(())
}

#[test]
fn leaves_nothing_behind(rt: HostRuntime) -> Result<(), Fail> {
    let mut desk = Desk::new(rt.clone()?, "behind")?;
    // no such folder, a name that is refused only once all is written, a folder, and a device that takes nothing
    for name in ["missing/image", "image/", "", "/dev/full"] {
        assert!(rt; !desk.stores(name, b"image")?, "at {name}");
        assert_eq!(rt; desk.count()?, 0);
    }
    assert!(rt; desk.stores("/dev/null", b"image")?);
    assert!(rt; desk.holds("/dev/null", b"")?);
    // a file that has the name of what is written beside stays as it is
    fs::write(&rt, desk.path(".nurghobi-0.part")?, "mine")?;
    assert!(rt; desk.stores("image", b"image")?);
    assert!(rt; desk.holds(".nurghobi-0.part", b"mine")?);
    assert_eq!(rt; desk.count()?, 2);
    desk.clear()?;
    Ok(())
}

#[test]
fn loads_up_to_the_limit(rt: HostRuntime) -> Result<(), Fail> {
    let mut desk = Desk::new(rt.clone()?, "loads")?;
    let sevens = vec![in rt.alloc(); 7u8; LONG]?;
    assert!(rt; desk.stores("image", sevens.as_slice())?);
    for (limit, wanted) in [
        (LONG as u32, Ok(LONG)),
        (u32::MAX, Ok(LONG)),
        (LONG as u32 - 1, Err(ShelfFail::TooLong)),
        (0, Err(ShelfFail::TooLong)),
    ] {
        assert!(rt; desk.loads("image", limit) == wanted, "at {limit}");
    }
    // a file without end, whose length is told as 0, and a folder
    assert!(rt; desk.loads("/dev/zero", 70_000) == Err(ShelfFail::TooLong));
    assert!(rt; desk.loads("/proc/self/status", 10) == Err(ShelfFail::TooLong));
    assert!(rt; desk.loads("", 70_000) == Err(ShelfFail::Failed));
    desk.clear()?;
    Ok(())
}
