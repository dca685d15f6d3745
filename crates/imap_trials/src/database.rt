//! Databases whose files a test makes.

use crate::file::{Calls, ENDLESS, Image, Left, TestFile, files_of};
use crate::filling::filled;
use imap_keeper::{KeepError, Keeper};
use imap_sql_keeper::SqlKeeper;
use imap_world::World;
use sqlite::{Connection, Error, ErrorCode, FileStore, Options};
use sqlite_disk::Files;
use std::alloc::Global;

/// Any number will do. It tells logs apart.
const SEED: u64 = 1;

/// A keeper over a database whose files a test makes.
pub(crate) trait TestKeeper: Keeper + Drop {
    /// Opens the database that has these octets, and takes it over. Makes the tables if it has none. Its
    /// files fail after `calls`.
    fn open(alloc: Global, image: &Image, calls: Calls) -> Result<Opened<Self>, KeepError>;

    /// Closes the database, which copies its log into its file unless the files refuse this.
    fn close(self, alloc: Global) -> Result<Left, KeepError>;

    /// Runs SQL in the database that has these octets, whatever its tables are. Returns the octets that
    /// it has then.
    fn execute(alloc: Global, image: &Image, sql: &str) -> Result<Image, KeepError>;
}

/// A database after the try to open it.
#[derive(Drop)]
pub(crate) enum Opened<K: Drop> {
    Keeper(K),
    /// It was refused. The files are left with this.
    Refused(KeepError, Left),
}

/// Saves these mailboxes into a new database.
pub(crate) fn new_keeper<K: TestKeeper>(alloc: Global, world: &World) -> Result<K, KeepError> {
    match K::open(alloc, &Image::empty(alloc), ENDLESS)? {
        Opened::Keeper(keeper) => filled(alloc, keeper, world),
        Opened::Refused(error, left) => {
            drop(left);
            Err(error)
        }
    }
}

/// Loads the mailboxes of the database that has these octets, and closes it.
pub(crate) fn load<K: TestKeeper>(
    alloc: Global,
    image: &Image,
) -> Result<(Result<World, KeepError>, Left), KeepError> {
    match K::open(alloc, image, ENDLESS)? {
        Opened::Keeper(keeper) => {
            let (loaded, keeper) = load_once(alloc, keeper);
            beside(loaded, keeper.close(alloc))
        }
        Opened::Refused(error, left) => Ok((Err(error), left)),
    }
}

/// Loads the mailboxes of the database that has these octets.
pub(crate) fn load_world<K: TestKeeper>(alloc: Global, image: &Image) -> Result<World, KeepError> {
    let (loaded, left) = load::<K>(alloc, image)?;
    drop(left);
    loaded
}

/// Loads mailboxes, and returns the keeper.
fn load_once<K: Keeper>(alloc: Global, mut keeper: K) -> (Result<World, KeepError>, K) {
    let loaded = keeper.load(alloc);
    (loaded, keeper)
}

fn beside<A: Drop>(loaded: A, left: Result<Left, KeepError>) -> Result<(A, Left), KeepError> {
    match left {
        Ok(left) => Ok((loaded, left)),
        Err(error) => Err(error),
    }
}

/// A database over two files.
type Database<F> = Connection<FileStore<F>>;

/// A keeper over such a database.
pub(crate) type DatabaseKeeper<F> = SqlKeeper<FileStore<F>>;

impl<F: TestFile> TestKeeper for SqlKeeper<FileStore<F>> {
    fn open(alloc: Global, image: &Image, calls: Calls) -> Result<Opened<Self>, KeepError> {
        let files = files_of(alloc, image, calls)?;
        match open_files(alloc, files) {
            Ok(keeper) => Ok(Opened::Keeper(keeper)),
            Err((error, files)) => Ok(Opened::Refused(error, Left::of::<F>(alloc, files)?)),
        }
    }

    fn close(self, alloc: Global) -> Result<Left, KeepError> {
        Left::of(alloc, files_closed(self.release()))
    }

    fn execute(alloc: Global, image: &Image, sql: &str) -> Result<Image, KeepError> {
        let files = files_of::<F>(alloc, image, ENDLESS)?;
        match connect(alloc, files) {
            Ok(conn) => image_after(alloc, conn, sql),
            Err((error, files)) => {
                drop(files);
                Err(error)
            }
        }
    }
}

/// Opens the database that the files have. A refusal returns the files.
fn connect<F: TestFile>(
    alloc: Global,
    files: Files<F>,
) -> Result<Database<F>, (KeepError, Files<F>)> {
    if !files.may_be_used() {
        return Err((KeepError::Refused, files));
    }
    match Connection::open_files(alloc, files, Options::new(SEED)) {
        Ok(conn) => Ok(conn),
        Err((error, left)) => Err((refusal(error), left.into_files())),
    }
}

/// Returns why a statement failed.
fn refusal(error: Error) -> KeepError {
    match error {
        Error::SqliteFailure(ErrorCode::OutOfMemory) => KeepError::Memory,
        _ => KeepError::Refused,
    }
}

/// Takes a database over. A refusal returns the files.
fn adopt<F: TestFile>(conn: Database<F>) -> Result<DatabaseKeeper<F>, (KeepError, Files<F>)> {
    match SqlKeeper::adopt(conn) {
        Ok(keeper) => Ok(keeper),
        Err((conn, error)) => Err((error, files_closed(conn))),
    }
}

fn open_files<F: TestFile>(
    alloc: Global,
    files: Files<F>,
) -> Result<DatabaseKeeper<F>, (KeepError, Files<F>)> {
    match connect(alloc, files) {
        Ok(conn) => adopt(conn),
        Err(refused) => Err(refused),
    }
}

/// Closes a database, which copies its log into its file. Returns the files, also if they refuse this.
fn files_closed<F: TestFile>(conn: Database<F>) -> Files<F> {
    match conn.close_files() {
        Ok(files) => files,
        Err((_, store)) => store.close(),
    }
}

/// Runs SQL, and closes the database.
fn image_after<F: TestFile>(
    alloc: Global,
    mut conn: Database<F>,
    sql: &str,
) -> Result<Image, KeepError> {
    let ran = conn.execute_batch(sql);
    let image = Image::of(alloc, files_closed(conn));
    match ran {
        Ok(()) => image,
        Err(error) => Err(refusal(error)),
    }
}
