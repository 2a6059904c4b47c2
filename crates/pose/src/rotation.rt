// Rotations of the cube by rows, and the triples of quarter turns that name them.
ghost use Rattle.std.specs.Prelude.{◌≡◌, ◌<◌};
ghost use Rattle.model.specs.Pose.{flip, row, coord, after, turned, with_row, transposed, times, quarter_x, quarter_y, quarter_z, axis_number, rot_of, triple, shown};
ghost use Rattle.pose.specs.Poses.{Within, widest};
ghost use Rattle.pose.specs.Numbers.{first_named};

use model::{Dir, Rot, Turns, Vec3};

fn flipped(d: Dir) -> Dir
    ensures { result ≡ flip d }
{
    match d {
        Dir::Px => Dir::Nx,
        Dir::Nx => Dir::Px,
        Dir::Py => Dir::Ny,
        Dir::Ny => Dir::Py,
        Dir::Pz => Dir::Nz,
        Dir::Nz => Dir::Pz,
    }
}

fn row_of(d: Dir, s: Rot) -> Dir
    ensures { result ≡ row d s }
{
    match d {
        Dir::Px => s.a,
        Dir::Nx => flipped(s.a),
        Dir::Py => s.b,
        Dir::Ny => flipped(s.b),
        Dir::Pz => s.c,
        Dir::Nz => flipped(s.c),
    }
}

// R·S: first s and then r.
pub fn compose(r: Rot, s: Rot) -> Rot
    ensures { result ≡ after r s }
{
    Rot {
        a: row_of(r.a, s),
        b: row_of(r.b, s),
        c: row_of(r.c, s),
    }
}

fn coord_of(d: Dir, v: Vec3) -> i64
    requires { Within widest v }
    ensures { result ≡ coord d v }
{
    match d {
        Dir::Px => v.x,
        Dir::Nx => -v.x,
        Dir::Py => v.y,
        Dir::Ny => -v.y,
        Dir::Pz => v.z,
        Dir::Nz => -v.z,
    }
}

// r, but with e as the row that d names.
fn with_row(d: Dir, e: Dir, r: Rot) -> Rot
    ensures { result ≡ with_row d e r }
{
    match d {
        Dir::Px => Rot { a: e, ..r },
        Dir::Nx => Rot { a: flipped(e), ..r },
        Dir::Py => Rot { b: e, ..r },
        Dir::Ny => Rot { b: flipped(e), ..r },
        Dir::Pz => Rot { c: e, ..r },
        Dir::Nz => Rot { c: flipped(e), ..r },
    }
}

// Rows become columns; of a rotation, what undoes it.
pub fn transpose(r: Rot) -> Rot
    ensures { result ≡ transposed r }
{
    let z = with_row(r.c, Dir::Pz, r);
    let yz = with_row(r.b, Dir::Py, z);
    with_row(r.a, Dir::Px, yz)
}

// R·t: a rotation applied to a column.
pub fn turn(r: Rot, v: Vec3) -> Vec3
    requires { Within widest v }
    ensures { result ≡ turned r v }
{
    Vec3 {
        x: coord_of(r.a, v),
        y: coord_of(r.b, v),
        z: coord_of(r.c, v),
    }
}

fn number(d: Dir) -> u8
    ensures { (result ≡ axis_number d) × (result < 6) }
{
    d as u8
}

// So many quarter turns about Z.
fn about_z(quarters: u8) -> Rot
    ensures { result ≡ times quarters quarter_z }
{
    match quarters % 4 {
        0 => Rot {
            a: Dir::Px,
            b: Dir::Py,
            c: Dir::Pz,
        },
        1 => Rot {
            a: Dir::Ny,
            b: Dir::Px,
            c: Dir::Pz,
        },
        2 => Rot {
            a: Dir::Nx,
            b: Dir::Ny,
            c: Dir::Pz,
        },
        _ => Rot {
            a: Dir::Py,
            b: Dir::Nx,
            c: Dir::Pz,
        },
    }
}

// First s, and then so many quarter turns about Y.
fn about_y(quarters: u8, s: Rot) -> Rot
    ensures { result ≡ after (times quarters quarter_y) s }
{
    let Rot { a, b, c } = s;
    match quarters % 4 {
        0 => s,
        1 => Rot {
            a: c,
            b,
            c: flipped(a),
        },
        2 => Rot {
            a: flipped(a),
            b,
            c: flipped(c),
        },
        _ => Rot {
            a: flipped(c),
            b,
            c: a,
        },
    }
}

// First s, and then so many quarter turns about X.
fn about_x(quarters: u8, s: Rot) -> Rot
    ensures { result ≡ after (times quarters quarter_x) s }
{
    let Rot { a, b, c } = s;
    match quarters % 4 {
        0 => s,
        1 => Rot {
            a,
            b: flipped(c),
            c: b,
        },
        2 => Rot {
            a,
            b: flipped(b),
            c: flipped(c),
        },
        _ => Rot {
            a,
            b: c,
            c: flipped(b),
        },
    }
}

// The rotation that a triple names: about Z, then about Y, then about X.
pub fn named(t: Turns) -> Rot
    ensures { result ≡ rot_of t }
{
    about_x(t.u, about_y(t.v, about_z(t.w)))
}

// The first two axes of a rotation determine the third. By the numbers of those two, as digits to the base six: the third, and the place in dictionary
// order of the first triple that names the rotation, as digits to the base 64. (A match on a number is a table that the compiler lays out once.)
fn first_named(axes: u8) -> u16
    requires { axes < 36 }
    ensures { result ≡ first_named axes }
{
    match axes {
        0 => 63,
        1 => 63,
        2 => 256,
        3 => 330,
        4 => 218,
        5 => 144,
        6 => 63,
        7 => 63,
        8 => 328,
        9 => 258,
        10 => 152,
        11 => 210,
        12 => 329,
        13 => 259,
        14 => 63,
        15 => 63,
        16 => 25,
        17 => 83,
        18 => 257,
        19 => 331,
        20 => 63,
        21 => 63,
        22 => 91,
        23 => 17,
        24 => 133,
        25 => 199,
        26 => 68,
        27 => 6,
        28 => 63,
        29 => 63,
        30 => 205,
        31 => 143,
        32 => 12,
        33 => 78,
        34 => 63,
        _ => 63,
    }
}

// The triple at a place in dictionary order.
pub fn triple_at(place: u8) -> Turns
    ensures { result ≡ triple place }
{
    Turns {
        u: place / 16,
        v: place / 4 % 4,
        w: place % 4,
    }
}

// The triple that a rotation is shown as. Axes that are no rotation have the last triple.
pub fn shown_of(r: Rot) -> Turns
    ensures { result ≡ shown r }
{
    let i = number(r.a);
    let j = number(r.b);
    let k = number(r.c);
    let first = first_named(i * 6 + j);
    if first / 64 != u16::from(k) {
        return triple_at(63);
    }
    triple_at((first % 64) as u8)
}
