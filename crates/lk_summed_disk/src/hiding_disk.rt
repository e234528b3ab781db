// A device of which files may be hidden.
ghost use Rattle.std.specs.Prelude.{◌≡◌, ◌≤◌, ◌<◌, ◌+◌, true, length, OnOk, OnErr};
ghost use Rattle.lk_disk.specs.Disk.{contents, cut_to, one_more, other, CutShort, HasCause};
ghost use Rattle.lk_disk.specs.Meters.{fresh as fresh_meter};
ghost use Rattle.lk_disk.specs.declared.device.Side.{Side};
ghost use Rattle.lk_summed_disk.specs.Hiding.{hides, shown, without};

use lk_disk::{DeviceFault, LogDisk, Side};

/// Which files of a device are hidden.
#[derive(Clone, Copy)]
pub struct Hidden {
    pub a: bool,
    pub b: bool,
}

impl Hidden {
    /// Whether the file at a side is hidden.
    pub fn at(&self, side: Side) -> bool
        ensures { result ≡ hides self.now side }
    {
        match side {
            Side::A => self.a,
            Side::B => self.b,
        }
    }

    /// Sets whether the file at a side is hidden.
    pub fn set(&mut self, side: Side, hidden: bool)
        ensures here { hides self.new side ≡ hidden }
        ensures there { hides self.new (other side) ≡ hides self.old (other side) }
    {
        match side {
            Side::A => self.a = hidden,
            Side::B => self.b = hidden,
        }
    }
}

/// The device below, with hidden files shown as empty ones. It is honest if that device is.
///
/// No call reads a hidden file, and none changes it but a cut to nothing: if that succeeds, the file is hidden no more.
/// Until then an append to it fails.
#[derive(Drop)]
pub struct HidingDisk<D: LogDisk + Drop> {
    pub inner: D,
    pub hidden: Hidden,
    pub failures: u64,
}

impl<D: LogDisk + Drop> HidingDisk<D> {
    /// The device below, with no file hidden.
    pub fn new(inner: D) -> HidingDisk<D>
        ensures { (s : Side) → shown D.disk result s ≡ D.disk inner s }
    {
        HidingDisk {
            inner,
            hidden: Hidden { a: false, b: false },
            failures: 0,
        }
    }

    /// Hides the file at a side.
    pub fn hide(&mut self, side: Side)
        ensures { (s : Side) → shown D.disk self.new s ≡ without side (shown D.disk self.old) s }
    {
        self.hidden.set(side, true);
    }

    // Counts a failure.
    fn fail(&mut self) -> DeviceFault
        ensures { self.new ≡ record self.old { failures = one_more self.old.failures } }
    {
        self.failures = self.failures.saturating_add(1);
        DeviceFault
    }

    // Cuts a hidden file to nothing; no longer hides it then. Fails at any other length.
    fn cut_hidden(&mut self, side: Side, len: usize) -> Result<(), DeviceFault>
        requires { hides self.old.hidden side ≡ true }
        ensures ok { D.is_honest → OnOk result (shown D.disk self.new side ≡ cut_to len (shown D.disk self.old side)) }
        ensures within { D.is_honest → OnOk result (len ≤ length (contents (shown D.disk self.old side))) }
        ensures err { D.is_honest
            → OnErr result (CutShort len (shown D.disk self.old side) (shown D.disk self.new side)) }
        ensures past_end { D.is_honest → length (contents (shown D.disk self.old side)) < len
            → shown D.disk self.new side ≡ shown D.disk self.old side }
        ensures beside { D.is_honest → shown D.disk self.new (other side) ≡ shown D.disk self.old (other side) }
        ensures cause { HasCause self.old.failures self.new.failures result }
    {
        if len != 0 {
            return Err(self.fail());
        }
        match self.inner.cut(side, 0) {
            Ok(()) => {
                self.hidden.set(side, false);
                Ok(())
            }
            Err(DeviceFault) => Err(self.fail()),
        }
    }
}

impl<D: LogDisk + Drop> LogDisk for HidingDisk<D> {
    ghost disk = { λ d s. shown D.disk d s };

    ghost is_honest = { D.is_honest };

    ghost failures = { λ d. d.failures };

    // Calls at a hidden file reach no meter: this device is not metered.
    ghost meter = { λ _. fresh_meter };

    ghost is_metered = { ⊥ };

    fn length(&mut self, side: Side) -> Result<usize, DeviceFault> {
        if self.hidden.at(side) {
            return Ok(0);
        }
        match self.inner.length(side) {
            Ok(length) => Ok(length),
            Err(DeviceFault) => Err(self.fail()),
        }
    }

    fn read_into(
        &mut self,
        side: Side,
        offset: usize,
        buffer: &mut [u8],
    ) -> Result<(), DeviceFault> {
        if self.hidden.at(side) {
            if offset != 0 || !buffer.is_empty() {
                return Err(self.fail());
            }
            return Ok(());
        }
        match self.inner.read_into(side, offset, buffer) {
            Ok(()) => Ok(()),
            Err(DeviceFault) => Err(self.fail()),
        }
    }

    fn append(&mut self, side: Side, piece: &[u8]) -> Result<(), DeviceFault> {
        if self.hidden.at(side) {
            return Err(self.fail());
        }
        match self.inner.append(side, piece) {
            Ok(()) => Ok(()),
            Err(DeviceFault) => Err(self.fail()),
        }
    }

    fn flush(&mut self, side: Side) -> Result<(), DeviceFault> {
        match self.inner.flush(side) {
            Ok(()) => Ok(()),
            Err(DeviceFault) => Err(self.fail()),
        }
    }

    fn sync(&mut self, side: Side) -> Result<(), DeviceFault> {
        if self.hidden.at(side) {
            return Ok(());
        }
        match self.inner.sync(side) {
            Ok(()) => Ok(()),
            Err(DeviceFault) => Err(self.fail()),
        }
    }

    fn cut(&mut self, side: Side, len: usize) -> Result<(), DeviceFault> {
        if self.hidden.at(side) {
            return self.cut_hidden(side, len);
        }
        match self.inner.cut(side, len) {
            Ok(()) => Ok(()),
            Err(DeviceFault) => Err(self.fail()),
        }
    }
}
