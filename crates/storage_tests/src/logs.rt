// Journals and savepoints at work, over disks in memory.
mod journal;
mod save;
mod two_devices;
