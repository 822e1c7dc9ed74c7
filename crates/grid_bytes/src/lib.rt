// A grid in 1,080 bytes, as C calls and files hold it.
#![tactic(auto)]

ghost use Rattle.std.specs.Prelude.{◌≡◌, length};
ghost use Rattle.grid_bytes.specs.GridBytes.{grid_of, grid_bytes};

use long::{long_inside, put_long};

pub fn read_grid(bytes: &[u8]) -> [u64; 135]
    requires { length bytes.now ≡ 1080 }
    ensures { result ≡ grid_of bytes.now }
{
    let mut grid = [0; 135];
    for k in 0..135 {
        grid[k] = long_inside(bytes, 8 * k);
    }
    grid
}

pub fn write_grid(bytes: &mut [u8], grid: [u64; 135])
    requires { length bytes.old ≡ 1080 }
    ensures { bytes.new ≡ grid_bytes grid }
{
    for (k, counter) in grid.iter().enumerate() {
        put_long(bytes, 8 * k, *counter);
    }
}
