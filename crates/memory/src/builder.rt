// What a build is given by single ranges.
ghost use Rattle.std.specs.Prelude.{◌≡◌};
ghost use Rattle.memory.specs.Builder.{builder_of, with_reserved_range, with_sidecar_image, with_page_tables, with_log_buffer};

use memory_range::MemoryRange;

#[derive(Clone, Copy)]
pub struct AddressSpaceManagerBuilder {
    // What the boot shim uses. The kernel may take it, but for what is reserved in it.
    pub bootshim_used: MemoryRange,
    pub persisted_state_region: MemoryRange,
    pub reserved_range: Option<MemoryRange>,
    pub sidecar_image: Option<MemoryRange>,
    pub page_tables: Option<MemoryRange>,
    pub log_buffer: Option<MemoryRange>,
}

impl AddressSpaceManagerBuilder {
    pub fn new(
        bootshim_used: MemoryRange,
        persisted_state_region: MemoryRange,
    ) -> AddressSpaceManagerBuilder
        ensures { result ≡ builder_of bootshim_used persisted_state_region }
    {
        AddressSpaceManagerBuilder {
            bootshim_used,
            persisted_state_region,
            reserved_range: None,
            sidecar_image: None,
            page_tables: None,
            log_buffer: None,
        }
    }

    pub fn with_reserved_range(self, reserved_range: MemoryRange) -> AddressSpaceManagerBuilder
        ensures { result ≡ with_reserved_range self reserved_range }
    {
        AddressSpaceManagerBuilder {
            reserved_range: Some(reserved_range),
            ..self
        }
    }

    pub fn with_sidecar_image(self, sidecar_image: MemoryRange) -> AddressSpaceManagerBuilder
        ensures { result ≡ with_sidecar_image self sidecar_image }
    {
        AddressSpaceManagerBuilder {
            sidecar_image: Some(sidecar_image),
            ..self
        }
    }

    pub fn with_page_tables(self, page_tables: MemoryRange) -> AddressSpaceManagerBuilder
        ensures { result ≡ with_page_tables self page_tables }
    {
        AddressSpaceManagerBuilder {
            page_tables: Some(page_tables),
            ..self
        }
    }

    pub fn with_log_buffer(self, log_buffer: MemoryRange) -> AddressSpaceManagerBuilder
        ensures { result ≡ with_log_buffer self log_buffer }
    {
        AddressSpaceManagerBuilder {
            log_buffer: Some(log_buffer),
            ..self
        }
    }
}
