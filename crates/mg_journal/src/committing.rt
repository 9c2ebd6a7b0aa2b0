// Writes that end with a sync.

pub(crate) use mg_disk::write_firmly;
